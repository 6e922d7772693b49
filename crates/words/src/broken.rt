// Which entry of a refused list breaks which rule, in words. The numbers are those of the paper's sentences, in their order; a profile has its own.
ghost use Rattle.std.specs.Prelude.{◌<◌};
ghost use Rattle.saying.specs.Lines.{InRoom};

use crate::said::{say_field, say_refused, say_telegram};
use crate::serial::say_beside;
use gateway::{Fault, Profile, Refusal};
use saying::{Line, print, put, say, say_number};

// The octets of a signal's entry in form 2, and where in it the serial number stands.
const SIGNAL_SIZE: usize = 18;

const SERIAL: usize = 16;

fn say_check_rule(line: Line, rule: usize) -> Line
    ensures { InRoom line.at result.at }
{
    match rule {
        1 => say(line, b"its address is odd"),
        2 => say(line, b"its address is below 16"),
        3 => say(line, b"its address is above 1022"),
        _ => say(line, b"its address is not above that of the check before"),
    }
}

fn say_signal_rule(line: Line, rule: usize) -> Line
    ensures { InRoom line.at result.at }
{
    match rule {
        1 => say(line, b"width not 1-64"),
        2 => say(line, b"type not 0-2"),
        3 => say(
            line,
            b"not wholly in its type's addresses, 16-319 of type 0, 320-1023 of 1 and 2",
        ),
        4 => say(
            line,
            b"its check does not exist, or lies in the other types' addresses",
        ),
        5 => say(line, b"since-version not 1-255"),
        6 => say(line, b"limit above 600,000"),
        7 => say(line, b"replacement not below 2^width"),
        8 => say(line, b"its type is below that of the signal before"),
        9 => say(line, b"it starts before the end of the signal before"),
        _ => say(line, b"it shares a bit with a check"),
    }
}

fn say_code_rule(line: Line, rule: usize) -> Line
    ensures { InRoom line.at result.at }
{
    match rule {
        1 => say(line, b"no such signal"),
        2 => say(line, b"its signal is wider than 16 bits"),
        3 => say(line, b"low above high"),
        4 => say(line, b"high not below 2^width"),
        5 => say(
            line,
            b"its signal's number is below that of the code before",
        ),
        _ => say(line, b"low does not exceed the high before by at least 2"),
    }
}

fn say_route_rule(line: Line, rule: usize) -> Line
    ensures { InRoom line.at result.at }
{
    match rule {
        1 => say(line, b"no such signal"),
        2 => say(line, b"vehicle not 1-63"),
        3 => say(line, b"its zero octet is not zero"),
        4 => say(line, b"it ends past bit 2048"),
        _ => say(line, b"it starts before the end of the route before"),
    }
}

fn say_rule(line: Line, section: usize, rule: usize) -> Line
    ensures { InRoom line.at result.at }
{
    match section {
        1 => say_check_rule(line, rule),
        2 => say_signal_rule(line, rule),
        3 => say_code_rule(line, rule),
        _ => say_route_rule(line, rule),
    }
}

fn say_allowed_types(line: Line, profile: Profile) -> Line
    ensures { InRoom line.at result.at }
{
    match profile {
        Profile::PlainCoach => say(line, b"type not 0"),
        Profile::DrivingTrailer => say(line, b"type not 0 or 1"),
    }
}

fn say_profile_signal_rule(line: Line, profile: Profile, rule: usize) -> Line
    ensures { InRoom line.at result.at }
{
    match rule {
        1 => say_allowed_types(line, profile),
        2 => say(line, b"more than 64 signals"),
        3 => say(line, b"it has no check"),
        4 => say(line, b"limit not 1-5,000"),
        5 => say(line, b"replacement not a known code"),
        _ => say(
            line,
            b"not in octets 47-73, or not wholly under the check place that the R1 grouping gives its bits",
        ),
    }
}

// No check and no code entry breaks a profile.
fn say_profile_rule(line: Line, profile: Profile, section: usize, rule: usize) -> Line
    ensures { InRoom line.at result.at }
{
    match section {
        2 => say_profile_signal_rule(line, profile, rule),
        _ => say(line, b"it ends past bit 128"),
    }
}

// The entry's number: checks count from 1, as a signal names them, all others from 0.
fn say_entry(line: Line, f: Fault) -> Line
    ensures { InRoom line.at result.at }
{
    let n = f.index as u64;
    match f.section {
        1 => say_number(say(line, b"check "), n.wrapping_add(1)),
        2 => say_number(say(line, b"signal "), n),
        3 => {
            let l = say_number(say(line, b"code entry "), n);
            say_number(say(l, b" of signal "), f.signal as u64)
        }
        _ => {
            let l = say_number(say(line, b"route "), n);
            say_number(say(l, b" of signal "), f.signal as u64)
        }
    }
}

fn say_type(line: Line, kind: usize) -> Line
    ensures { InRoom line.at result.at }
{
    if 2 < kind {
        return say_number(say(line, b"type "), kind as u64);
    }
    say_telegram(line, kind)
}

// Two octets of a list as a number; 0 where it has not so many.
fn read(list: &[u8], at: usize) -> usize
    ensures { result < 65536 }
{
    match list.get(at..) {
        Some([high, low, ..]) => *high as usize * 256 + *low as usize,
        _ => 0,
    }
}

// The serial number of the signal that the entry is or names, in form 2. It is read where it stands: of a refused list no call tells it.
fn serial_in(list: &[u8], f: Fault) -> usize {
    if 65535 < f.signal {
        return 0;
    }
    let signals = 2 + 2 * read(list, 0) + 2;
    read(list, signals + SIGNAL_SIZE * f.signal + SERIAL)
}

// Where the signal lies: a field of no bits, where it starts; a signal that does not exist, nowhere.
fn say_where(line: Line, list: &[u8], form: u8, f: Fault) -> Line
    ensures { InRoom line.at result.at }
{
    if f.section == 1 {
        return say_field(say(line, b", "), f.start, f.width);
    }
    if f.width == 0 && f.section != 2 {
        return line;
    }
    let l = put(say_type(say(line, b", "), f.kind), b' ');
    say_beside(
        say_field(l, f.start, f.width.max(1)),
        form,
        serial_in(list, f),
    )
}

// The entry at fault, up to what its rule says: `rule` tells the paper's numbers from a profile's.
fn say_broken(line: Line, list: &[u8], form: u8, f: Fault, rule: &[u8]) -> Line
    ensures { InRoom line.at result.at }
{
    let l = say_where(say_entry(say(line, b": "), f), list, form, f);
    say(say_number(say(l, rule), f.rule as u64), b": ")
}

fn say_fault(line: Line, list: &[u8], form: u8, f: Fault) -> Line
    ensures { InRoom line.at result.at }
{
    let l = say_broken(line, list, form, f, b", rule ");
    say_rule(l, f.section, f.rule)
}

fn say_breach(line: Line, profile: Profile, list: &[u8], form: u8, f: Fault) -> Line
    ensures { InRoom line.at result.at }
{
    let l = say_broken(line, list, form, f, b", profile rule ");
    say_profile_rule(l, profile, f.section, f.rule)
}

// The refusal of a list, with the entry at fault where there is one; `of` says which list of two it is.
pub fn print_refused_list_of(list: &[u8], form: u8, f: Refusal, of: &[u8]) {
    let l = say_refused(f, of);
    match gateway::find_fault(list, form) {
        Some(x) => print(say_fault(l, list, form, x)),
        None => print(l),
    }
}

pub fn print_refused_list(list: &[u8], form: u8, f: Refusal) {
    print_refused_list_of(list, form, f, b"");
}

// The same of a list that was judged under a profile. What the general rules refuse has no entry that breaks the profile.
pub fn print_refused_profile(profile: Profile, list: &[u8], form: u8, f: Refusal) {
    match gateway::find_breach(profile, list, form) {
        Some(x) => print(say_breach(say_refused(f, b""), profile, list, form, x)),
        None => print_refused_list(list, form, f),
    }
}
