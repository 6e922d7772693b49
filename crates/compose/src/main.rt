// Composes a telegram out of a text file of values and marks.
#![tactic(auto)]

ghost use Rattle.std.specs.Prelude.{◌≡◌, ◌≤◌, length};

mod place;
mod text;

use files::Host;
use gateway::{Counts, LONGEST};
use saying::STDOUT;
use std::rt::Env;

fn help() {
    io::write_all(
        STDOUT,
        b"compose LIST TYPE VALUES OUT [form2]

Composes an R-telegram under the signal list LIST and writes it to OUT.

LIST      a signal list; `judge LIST` says what is wrong with one
TYPE      R1, R2 or R3, or 1 to 3
VALUES    a text file of lines, where # begins a comment:
            value PLACE VALUE    as `value R1 octet 54 bits 0-3 4`
            mark PLACE MARK      as `mark octet 41 bits 2-3 forced`
          The PLACE of a signal is its type, R3 where it is common, and its
          field: octet 54, octets 51-52, octet 54 bit 0, octet 54 bits 0-3,
          octet 47 bit 4 to 48 bit 7, or start 424, its first bit's address.
          A check's is its field alone; a signal must name it.
          MARK is error, ok, forced, undefined or 0 to 3 (4 to 255 is refused,
          14, where it is written).
          A number stands for a place too, of a signal from 0, as `believe`
          counts, of a check from 1: in another list it is another signal's.
          A value that is not given is the signal's replacement in LIST, a mark
          that is not given is ok. Of two lines for one entry the last counts.
OUT       the telegram's file; what exists is replaced only where it is a
          telegram, as `take` takes one

Prints `composed R1 version 3 octets 128`, then a line that begins with `note`
for each value given that the type does not carry: it is not in the telegram.
With the word `form2` LIST is in form 2: in a note the signal's serial number
stands behind its place, as `(4.3)` or `(no serial number)`. In VALUES a place
is given without it. `convert help` says how one is printed.
Where nothing was composed it prints one line that begins with `refused` and the
number of document 01, or with `error`, and OUT is as it was. It is replaced
whole, by way of OUT.new, with its owner and mode but without access lists;
links stay; one that is read-only or has hard links is an error. OUT.lock names
the process at work: others wait, and where it holds on for five seconds their
line begins with `error: busy`. What a killed one left is taken away.
",
    );
}

fn replacement_of(list: &[u8], form: u8, k: usize) -> u64 {
    gateway::signal_entry(list, form, k).map_or(0, |e| e.signal.replacement)
}

// What is not given is the list's replacement: 0 need not be a known code.
fn replacements(list: &[u8], form: u8, values: &mut [u64]) {
    for k in 0..values.len() {
        values[k] = replacement_of(list, form, k);
    }
}

fn print_composed(kind: usize, version: usize, octets: usize) {
    let l = words::say_telegram(saying::say(saying::empty(), b"composed "), kind);
    let l = saying::say_number(saying::say(l, b" version "), version as u64);
    let l = saying::say_number(saying::say(l, b" octets "), octets as u64);
    saying::print(l);
}

fn compose_out(
    rt: &impl Host,
    list: &[u8],
    form: u8,
    n: Counts,
    kind: usize,
    values: &[u64],
    marks: &[u8],
    out: &mut [u8],
) -> bool {
    if let Err(f) = gateway::compose(list, form, kind, values, marks, out) {
        words::print_refused(f);
        return false;
    }
    let ok = words::write_telegram(rt, 4, 1, 3, out);
    if ok {
        print_composed(kind, n.version, out.len());
    }
    ok
}

// A telegram of the type's length; the type itself is tested by the composing.
fn compose_kind(
    rt: &impl Host,
    list: &[u8],
    form: u8,
    n: Counts,
    kind: usize,
    values: &[u64],
    marks: &[u8],
) -> bool {
    if kind == 3 {
        let mut out = [0u8; 40];
        compose_out(rt, list, form, n, kind, values, marks, &mut out)
    } else {
        let mut out = [0u8; 128];
        compose_out(rt, list, form, n, kind, values, marks, &mut out)
    }
}

fn compose_given(
    rt: &impl Host,
    list: &[u8],
    form: u8,
    n: Counts,
    kind: usize,
    given: &[u8],
    values: &mut [u64],
    marks: &mut [u8],
) {
    replacements(list, form, values);
    if !text::read_lines(rt, list, form, given, values, marks) {
        return;
    }
    if compose_kind(rt, list, form, n, kind, values, marks) {
        text::print_notes(rt, list, form, given, kind);
    }
}

fn no_values() -> [u64; 256]
    ensures { 256 ≡ length result }
{
    [0u64; 256]
}

fn all_ok() -> [u8; 64]
    ensures { 64 ≡ length result }
{
    [1u8; 64]
}

fn compose_under(rt: &impl Host, list: &[u8], form: u8, n: Counts, kind: usize, given: &[u8])
    requires { (n.signals ≤ 256) × (n.checks ≤ 64) }
{
    let signals = n.signals;
    let checks = n.checks;
    let mut values = no_values();
    let mut marks = all_ok();
    compose_given(
        rt,
        list,
        form,
        n,
        kind,
        given,
        &mut values[..signals],
        &mut marks[..checks],
    );
}

fn judge(rt: &impl Host, list: &[u8], form: u8, kind: usize, given: &[u8]) {
    match gateway::judge(list, form) {
        Err(f) => words::print_refused(f),
        Ok(n) => compose_under(rt, list, form, n, kind, given),
    }
}

fn read_values(rt: &impl Host, list: &[u8], form: u8, kind: usize) {
    let mut given = [0u8; 65537];
    let Ok(n) = files::read(rt, 3, b"VALUES", &mut given) else {
        return;
    };
    if n == 65537 {
        files::print_long(rt, 3, b"VALUES", 65536);
        return;
    }
    judge(rt, list, form, kind, &given[..n]);
}

fn read_files(rt: &impl Host, kind: usize, form: u8) {
    let mut list = [0u8; LONGEST + 1];
    let Ok(n) = files::read(rt, 1, b"LIST", &mut list) else {
        return;
    };
    read_values(rt, &list[..n], form, kind);
}

// R1, R2 or R3, or the type's number. A number that is no type's is refused by the composing.
fn type_argument(rt: &impl Env) -> Option<u64> {
    if saying::is_word(rt, 2, b"R1") {
        return Some(1);
    }
    if saying::is_word(rt, 2, b"R2") {
        return Some(2);
    }
    if saying::is_word(rt, 2, b"R3") {
        return Some(3);
    }
    let n = saying::number_of(rt, 2, u32::MAX as u64);
    if n.is_none() {
        saying::print_word(rt, 2, b"TYPE", b"not R1, R2 or R3, nor 1 to 3");
    }
    n
}

fn ask(rt: &impl Host, form: u8) {
    if let Some(kind) = type_argument(rt) {
        read_files(rt, kind as usize, form);
    }
}

fn main(rt: HostRuntime) {
    let n = saying::argument_count(&rt);
    if saying::asks_help(&rt, n) {
        help();
        return;
    }
    let is_form_2 = saying::has_option(&rt, 5, n, b"form2");
    if saying::words_before(n, saying::one_if(is_form_2)) == 4 {
        ask(&rt, words::form_of(is_form_2));
        return;
    }
    saying::print_usage(b"compose LIST TYPE VALUES OUT [form2]");
}
