// What is found of a step, in words.
ghost use Rattle.std.specs.Prelude.{◌≡◌, ◌≤◌};
ghost use Rattle.paper.specs.Octets.{bit, field};

use gateway::{Reason, Refusal, Route, Routed, Signal, WrongBit};
use saying::{Line, Page, empty, say, say_number, say_right};

// The standard error, as `io` takes it.
const STDERR: i32 = 2;

// Where the values end.
const COLUMN: usize = 27;

// The bit at an address; 0 past the end.
#[tactic(auto, using(crate::proofs::Laws::bit_past), unfolding(paper::specs::Octets::bit))]
fn bit_at(octets: &[u8], a: usize) -> u64
    ensures { result ≡ bit octets.now a }
{
    let i = a / 8;
    if octets.len() <= i {
        return 0;
    }
    (octets[i] as u64 >> (7 - a % 8)) % 2
}

// A field of the data as a number. No field of a route is wider or starts later.
#[tactic(auto, using(crate::proofs::Laws::field_none, crate::proofs::Laws::field_more, crate::proofs::Laws::field_room))]
fn field_of(octets: &[u8], start: usize, width: usize) -> u64
    ensures { start ≤ 2048 → width ≤ 64 → result ≡ field octets.now start width }
{
    if 2048 < start || 64 < width {
        return 0;
    }
    let mut value = 0;
    for i in 0..width {
        value = value * 2 + bit_at(octets, start + i);
    }
    value
}

fn say_head(step: usize, clock: u32, w: WrongBit) -> Line
    ensures { result.at ≤ 240 }
{
    let l = say_number(say(empty(), b"wrong in step "), step as u64);
    let l = say_number(say(l, b" at clock "), clock as u64);
    let octet = w.octet.wrapping_add(1);
    let l = say_number(say(l, b": octet "), octet as u64);
    say_number(say(l, b" bit "), w.bit as u64)
}

// From octet i on; nothing where there are no more.
fn behind(octets: &[u8], i: usize) -> &[u8] {
    &octets[i.min(octets.len())..]
}

// The two bits where no route puts one: ours is that of the data before.
fn say_beside(before: &[u8], after: &[u8], w: WrongBit) -> Line
    ensures { result.at ≤ 240 }
{
    let ours = bit_at(behind(before, w.octet), w.bit);
    let theirs = bit_at(behind(after, w.octet), w.bit);
    let l = say_number(say(empty(), b"in no route: ours "), ours);
    say_number(say(l, b", theirs "), theirs)
}

// A route with its field of the data, and with the vehicle and the signal that it takes there.
fn say_route(list: &[u8], form: u8, route: usize, t: Route, s: Signal) -> Line
    ensures { result.at ≤ 240 }
{
    let l = say_number(say(empty(), b"route "), route as u64);
    let l = words::say_field(say(l, b" to "), t.start, s.width);
    let l = say_number(say(l, b"  vehicle "), t.vehicle as u64);
    let serial = words::serial_at(list, form, t.signal);
    words::say_signal(say(l, b"  "), form, s, serial)
}

fn say_ours(value: u64, reason: Reason) -> Line
    ensures { result.at ≤ 240 }
{
    let l = say_right(say(empty(), b"ours"), COLUMN, value);
    words::say_reason(say(l, b"  "), reason.number())
}

fn say_theirs(value: u64) -> Line
    ensures { result.at ≤ 240 }
{
    say_right(say(empty(), b"theirs"), COLUMN, value)
}

fn add_route(
    page: &mut Page,
    list: &[u8],
    form: u8,
    store: &[u8],
    clock: u32,
    after: &[u8],
    r: Routed,
) {
    let Ok(Some(t)) = gateway::route_entry(list, form, r.route) else {
        return;
    };
    let Ok(e) = gateway::signal_entry(list, form, t.signal) else {
        return;
    };
    let Ok(x) = gateway::read(list, form, store, clock, t.vehicle, t.signal) else {
        return;
    };
    let s = e.signal;
    saying::add(page, say_route(list, form, r.route, t, s));
    saying::add(page, say_ours(x.value, r.reason));
    saying::add(page, say_theirs(field_of(after, t.start, s.width)));
}

// The first wrong bit of a step, counted from 1; all lines at once, so that those of several programs do not mix.
pub fn print_wrong(
    list: &[u8],
    form: u8,
    step: usize,
    store: &[u8],
    clock: u32,
    before: &[u8],
    after: &[u8],
    w: WrongBit,
) {
    let mut page = saying::new_page();
    saying::add(&mut page, say_head(step, clock, w));
    match w.route {
        Some(r) => add_route(&mut page, list, form, store, clock, after, r),
        None => saying::add(&mut page, say_beside(before, after, w)),
    }
    saying::flush(&mut page);
}

// A refused step: of a list with the entry at fault, of a store with what can be said of its length.
pub fn print_refused(list: &[u8], form: u8, step: usize, octets: usize, f: Refusal) {
    let l = say_number(say(empty(), b" in step "), step as u64);
    let of = saying::said(&l);
    match f {
        Refusal::ListEnds(_)
        | Refusal::CountAbove(_)
        | Refusal::EntryBroken(_)
        | Refusal::OctetsAfter(_) => words::print_refused_list_of(list, form, f, of),
        _ => words::print_refused_store_of(f, octets, of),
    }
}

pub fn print_accepted(steps: usize) {
    let l = say_number(say(empty(), b"accepted, "), steps as u64);
    saying::print(say(l, b" steps"));
}

// A line on standard error, at once.
pub fn print_progress(steps: usize) {
    let l = say_number(say(empty(), b"recording: "), steps as u64);
    let l = say(l, b" steps\n");
    io::write_all(STDERR, saying::said(&l));
}
