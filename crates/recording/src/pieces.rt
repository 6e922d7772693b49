// A recording's file, a piece at a time: its head, then step after step. Where a piece is not to be had, an error line has said why.
ghost use Rattle.std.specs.Prelude.{◌≡◌, ◌<◌, ◌≤◌};
ghost use Rattle.paper.specs.Octets.{number};

use files::Host;
use gateway::{FORM_1, FORM_2};
use saying::{Line, say, say_number};
use std::fs::File;
use std::rt::Env;

// How many octets of an area are held.
pub const ROOM: usize = 65536;

pub type Area = [u8; ROOM];

// What stands before the steps: the form of the list, and how many octets it has.
#[derive(Clone, Copy, Debug, PartialEq, Eq)]
pub struct Listed {
    pub form: u8,
    pub octets: usize,
}

// A step: its clock, and how many octets its areas have.
#[derive(Clone, Copy, Debug, PartialEq, Eq)]
pub struct Step {
    pub clock: u32,
    pub store: usize,
    pub before: usize,
    pub after: usize,
}

// There is no such piece; an error line has said why.
#[derive(Clone, Copy, Debug, PartialEq, Eq)]
pub struct NotHad;

// The first n octets; all where there are fewer.
pub fn first(octets: &[u8], n: usize) -> &[u8] {
    &octets[..n.min(octets.len())]
}

// The error line on the file, up to what is wrong; on a step of it, counted from 1, where it is not 0.
fn say_at(rt: &impl Env, step: usize) -> Line
    ensures { result.at ≤ 240 }
{
    let l = saying::say_argument(rt, say(saying::empty(), b"error: FILE "), 1, b"");
    if step == 0 {
        return say(l, b": ");
    }
    say(say_number(say(l, b" step "), step as u64), b": ")
}

fn print_ends(rt: &impl Env, step: usize, what: &[u8]) {
    saying::print(say(say(say_at(rt, step), b"ends within the "), what));
}

fn print_long(rt: &impl Env, step: usize, what: &[u8]) {
    let l = say_number(say(say_at(rt, step), b"more than "), ROOM as u64);
    saying::print(say(say(l, b" octets in the "), what));
}

fn print_form(rt: &impl Env, form: u8) {
    let l = say_number(say(say_at(rt, 0), b"form "), form as u64);
    saying::print(say(l, b" of the list is neither 1 nor 2"));
}

// Four octets as a number, the high one first.
fn number_in(octets: &[u8; 4]) -> usize
    ensures { (result ≡ number octets.now 0 4) × (result < 4294967296) }
{
    let high = octets[0] as usize * 256 + octets[1] as usize;
    (high * 256 + octets[2] as usize) * 256 + octets[3] as usize
}

fn clock_in(octets: &[u8; 4]) -> u32
    ensures { result ≡ number octets.now 0 4 }
{
    number_in(octets) as u32
}

// The next octets, so far as there are any.
fn take_some(rt: &impl Host, file: &mut File, piece: &mut [u8]) -> Result<usize, NotHad> {
    files::read_piece(rt, 1, b"FILE", file, piece).map_err(|_| NotHad)
}

// Fills the piece with the next octets; `what` is what the file ends within where there are too few.
fn fill(
    rt: &impl Host,
    file: &mut File,
    step: usize,
    what: &[u8],
    piece: &mut [u8],
) -> Result<(), NotHad> {
    if take_some(rt, file, piece)? < piece.len() {
        print_ends(rt, step, what);
        return Err(NotHad);
    }
    Ok(())
}

// The next area: its length, then so many octets.
fn take_area(
    rt: &impl Host,
    file: &mut File,
    step: usize,
    what: &[u8],
    area: &mut [u8],
) -> Result<usize, NotHad> {
    let mut length = [0u8; 4];
    fill(rt, file, step, what, &mut length)?;
    let octets = number_in(&length);
    if area.len() < octets {
        print_long(rt, step, what);
        return Err(NotHad);
    }
    fill(rt, file, step, what, &mut area[..octets])?;
    Ok(octets)
}

// Whether n octets begin as a recording does.
fn is_begun(octets: &[u8; 9], n: usize) -> bool {
    let k = n.min(8);
    first(octets, k) == first(b"DUSTREC\x01", k)
}

fn take_list(rt: &impl Host, file: &mut File, form: u8, list: &mut Area) -> Result<Listed, NotHad> {
    if form != FORM_1 && form != FORM_2 {
        print_form(rt, form);
        return Err(NotHad);
    }
    let octets = take_area(rt, file, 0, b"list", list)?;
    Ok(Listed { form, octets })
}

// What stands before the steps.
pub fn take_head(rt: &impl Host, file: &mut File, list: &mut Area) -> Result<Listed, NotHad> {
    let mut head = [0u8; 9];
    let n = take_some(rt, file, &mut head)?;
    if !is_begun(&head, n) {
        saying::print(say(
            say_at(rt, 0),
            b"no recording: it does not begin with DUSTREC and the octet 1",
        ));
        return Err(NotHad);
    }
    if n < 9 {
        print_ends(rt, 0, b"head");
        return Err(NotHad);
    }
    take_list(rt, file, head[8], list)
}

// The next step, counted from 1; None at the file's end.
pub fn take_step(
    rt: &impl Host,
    file: &mut File,
    step: usize,
    store: &mut Area,
    before: &mut Area,
    after: &mut Area,
) -> Result<Option<Step>, NotHad> {
    let mut clock = [0u8; 4];
    let n = take_some(rt, file, &mut clock)?;
    if n == 0 {
        return Ok(None);
    }
    if n < 4 {
        print_ends(rt, step, b"clock");
        return Err(NotHad);
    }
    Ok(Some(Step {
        clock: clock_in(&clock),
        store: take_area(rt, file, step, b"store", store)?,
        before: take_area(rt, file, step, b"data before", before)?,
        after: take_area(rt, file, step, b"data after", after)?,
    }))
}
