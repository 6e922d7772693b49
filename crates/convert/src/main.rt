// Moves a signal list to the other form, with serial numbers or without, into a new file.
#![tactic(auto)]

ghost use Rattle.saying.specs.Lines.{InRoom};

use files::Host;
use gateway::{Counts, FORM_1, FORM_2, LONGEST, Refusal};
use saying::{Line, STDOUT};

// The serial numbers of a list that are set: the first one's signal, and how many.
#[derive(Clone, Copy, Debug, PartialEq, Eq)]
struct Serials {
    first: usize,
    count: usize,
}

fn help() {
    io::write_all(
        STDOUT,
        b"convert LIST FORM OUT

Moves the signal list LIST to the other form, and writes it to OUT.

LIST      a signal list; `judge` says what is wrong with one
FORM      form2, to move a list in form 1 to form 2, or form1, to move it back
OUT       the moved list's file; one that exists is not written over

In form 1 a signal has 16 octets, in form 2 it has 18, the last two its serial
number in Appendix A, 0 for none. All else is the same, and so is every answer
that a list gives. Moved to form 2, each signal has none; a list can be moved
back only while none is set, and then has the octets that it had.

Prints one line, as `moved to form 2: 165 signals, 3404 octets`. Where nothing
was moved the line begins with `refused` and a number, or with `error`, and OUT
is as it was. A list that breaks a rule is refused as by `judge`. With 32,
serial number set, the line goes on with the first signal that has one, and how
many have.

The programs print a serial number as Appendix A does: group, point, number, a
letter and a variant behind a stroke, where it has them, as `4.3`, `10.1R` or
`4.2R/1e`; what is packed as no such number, as `0x` and four digits.
`believe`, `compose`, `judge` and `marshal` take a list in form 2 with the word
`form2` behind all others, `differ` and `extends` with `first-form2` and
`second-form2`.
",
    );
}

// With the signal, if it has a serial number.
fn with_signal(found: Serials, list: &[u8], signal: usize) -> Serials {
    if words::serial_at(list, FORM_2, signal) == 0 {
        return found;
    }
    Serials {
        first: if found.count == 0 {
            signal
        } else {
            found.first
        },
        count: found.count.wrapping_add(1),
    }
}

fn serials_of(list: &[u8], signals: usize) -> Serials {
    let mut found = Serials { first: 0, count: 0 };
    for k in 0..signals {
        found = with_signal(found, list, k);
    }
    found
}

fn say_signal(line: Line, list: &[u8], k: usize) -> Line
    ensures { InRoom line.at result.at }
{
    let Ok(e) = gateway::signal_entry(list, FORM_2, k) else {
        return line;
    };
    let l = saying::say_number(saying::say(line, b"signal "), k as u64);
    let serial = words::serial_at(list, FORM_2, k);
    words::say_signal(saying::say(l, b", "), FORM_2, e.signal, serial)
}

// Serial numbers that are set: which is the first, and how many.
fn print_refused(f: Refusal, list: &[u8], n: Counts) {
    let l = words::say_refused(f, b"");
    if f != Refusal::SerialSet {
        saying::print(l);
        return;
    }
    let found = serials_of(list, n.signals);
    let l = say_signal(saying::say(l, b": "), list, found.first);
    saying::print(saying::say_number(saying::say(l, b", the first of "), found.count as u64));
}

fn print_moved(form: u8, n: Counts, octets: usize) {
    let l = saying::say_number(saying::say(saying::empty(), b"moved to form "), form as u64);
    let l = saying::say_number(saying::say(l, b": "), n.signals as u64);
    let l = saying::say_number(saying::say(l, b" signals, "), octets as u64);
    saying::print(saying::say(l, b" octets"));
}

fn move_into(rt: &impl Host, list: &[u8], n: Counts, form: u8, out: &mut [u8]) {
    let moved = if form == FORM_2 {
        gateway::to_form_2(list, out)
    } else {
        gateway::to_form_1(list, out)
    };
    if let Err(f) = moved {
        print_refused(f, list, n);
    } else if files::make(rt, 3, b"OUT", out) {
        print_moved(form, n, out.len());
    }
}

// The octets of a list of so many that is moved to the form: two more or less for each signal. None has more than the longest.
fn needed(octets: usize, signals: usize, form: u8) -> usize {
    let serials = signals.wrapping_add(signals);
    if form == FORM_2 {
        octets.wrapping_add(serials)
    } else {
        octets.wrapping_sub(serials)
    }
}

fn move_list(rt: &impl Host, list: &[u8], n: Counts, form: u8) {
    let mut out = [0u8; LONGEST];
    let k = needed(list.len(), n.signals, form).min(LONGEST);
    move_into(rt, list, n, form, &mut out[..k]);
}

// The list is in the form that it is not moved to.
fn judge(rt: &impl Host, list: &[u8], form: u8) {
    let from = words::form_of(form == FORM_1);
    match gateway::judge(list, from) {
        Err(f) => words::print_refused_list(list, from, f),
        Ok(n) => move_list(rt, list, n, form),
    }
}

fn read_list(rt: &impl Host, form: u8) {
    let mut list = [0u8; LONGEST + 1];
    let Ok(n) = files::read(rt, 1, b"LIST", &mut list) else {
        return;
    };
    judge(rt, &list[..n], form);
}

fn ask(rt: &impl Host) {
    let to_1 = saying::is_word(rt, 2, b"form1");
    let to_2 = saying::is_word(rt, 2, b"form2");
    if to_1 || to_2 {
        read_list(rt, words::form_of(to_2));
        return;
    }
    saying::print_word(rt, 2, b"FORM", b"neither form1 nor form2");
}

fn main(rt: HostRuntime) {
    let n = saying::argument_count(&rt);
    if saying::asks_help(&rt, n) {
        help();
        return;
    }
    if n == 4 {
        ask(&rt);
        return;
    }
    saying::print_usage(b"convert LIST FORM OUT");
}
