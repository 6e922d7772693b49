// Compares two signal lists: what the second adds, removes and changes, a line each, and whether it extends the first.
#![tactic(auto)]

mod changes;
mod route;
mod signal;
mod telling;

use crate::changes::{changed_routes, changed_signals};
use crate::telling::Asked;
use files::Host;
use gateway::{Counts, FORM_2, LONGEST};
use saying::{Page, STDOUT};
use std::rt::Env;

fn help() {
    io::write_all(
        STDOUT,
        b"compare FIRST SECOND [first-form2] [second-form2] [table]

Compares the signal lists FIRST and SECOND, and says in the last line whether
SECOND extends FIRST, as `extends` does: `extends: yes` or `extends: no`. Where
nothing differs that is the only line.
Above it stands a line for each signal that SECOND adds, removes or changes, by
type and start, as
  changed  R1 octet 54 bits 0-3  limit 5000 -> 2500  replacement 0 -> 15
with each field that differs, its number in FIRST and in SECOND: width, check
(its place, or none), since, limit, replacement. Where the widths are equal and
at most 16, the known codes gained and lost follow, in ranges. A signal that is
added or removed stands there with its own numbers. A PLACE is that of FIRST
where it has the signal. Then come the routes, by their destination: one that is
added or removed with its vehicle and the place of its signal, a changed one with
what of these differs.
A line that begins with ! is why SECOND does not extend FIRST, and closes with
the first rule of extending that the difference breaks:
  1 width  2 check place  3 since-version  4 codes lost  5 removed
  6 added, and its since-version is not above the version of FIRST
Checks that no signal names do not count, nor does a code range that is full.
With the words `first-form2` and `second-form2` that list is in form 2: each
PLACE has the signal's serial number behind it, as `(4.3)`, or, where the lists
have different ones, both. They count for nothing here. `convert help` says how
one is printed.
With the word `table` there is a row for each field and each range instead, of 8
columns with a tab between, and a row of their names above where something
differs: what (signal, route), change, type, start, breaks (the rule's number, 0
for none), field, from and to, which are the number in FIRST and in SECOND (a
dash where a list has no such entry), or of `gained` and `lost` the lowest code
and the highest. A place is its first bit's address, no check is 0. A route has
a dash for its type and its destination for start, and the fields vehicle,
signal_type and signal_start. In form 2 two columns more stand behind start,
serial_1 and serial_2 (a dash for none). The last line stays the last.
These words may be combined, in any order.
A list that breaks a rule gets one line that begins with `refused`, as of
`judge`, and says which list it is; nothing is compared then. A file that cannot
be read gets one line that begins with `error`.
The exit status is as of `diff`: 0 nothing differs, 1 something differs, whether
SECOND extends FIRST or not, 2 refused or error.
",
    );
}

fn is_any(a: &[u8], b: &[u8], asked: Asked) -> bool {
    changed_signals(a, b, asked).next().is_some() || changed_routes(a, b, asked).next().is_some()
}

fn print_names(page: &mut Page, asked: Asked) {
    let l = saying::say(saying::empty(), b"what\tchange\ttype\tstart");
    let l = words::say_serial_name(l, telling::form_of_table(asked), b"serial_1\tserial_2");
    saying::add(page, saying::say(l, b"\tbreaks\tfield\tfrom\tto"));
}

fn print_verdict(page: &mut Page, a: &[u8], b: &[u8], asked: Asked) {
    let l = saying::say(saying::empty(), b"extends: ");
    match gateway::extends(a, asked.first_form, b, asked.second_form) {
        Ok(true) => saying::add(page, saying::say(l, b"yes")),
        _ => saying::add(page, saying::say(l, b"no")),
    }
}

// With the version of the first list, and the column behind the places of both.
fn placed(a: &[u8], m: Counts, b: &[u8], asked: Asked) -> Asked {
    Asked {
        version: m.version,
        column: signal::column(a, b, asked).max(route::column(a, b, asked)),
        ..asked
    }
}

fn print_all(a: &[u8], m: Counts, b: &[u8], asked: Asked) {
    let mut page = saying::new_page();
    let p = placed(a, m, b, asked);
    if asked.is_table && is_any(a, b, asked) {
        print_names(&mut page, asked);
    }
    signal::print_all(&mut page, a, b, p);
    route::print_all(&mut page, a, b, p);
    print_verdict(&mut page, a, b, p);
    saying::flush(&mut page);
}

// The counts of a list; a list that is not accepted is said to be refused.
fn judge(list: &[u8], form: u8, of: &[u8]) -> Option<Counts> {
    match gateway::judge(list, form) {
        Ok(n) => Some(n),
        Err(f) => {
            words::print_refused_list_of(list, form, f, of);
            None
        }
    }
}

fn compare(a: &[u8], b: &[u8], asked: Asked) {
    let Some(m) = judge(a, asked.first_form, b" (first list)") else {
        return;
    };
    if judge(b, asked.second_form, b" (second list)").is_some() {
        print_all(a, m, b, asked);
    }
}

// One octet more than the longest list: what follows cannot change the answer.
fn read_lists(rt: &impl Host, asked: Asked) {
    let mut a = [0u8; LONGEST + 1];
    let Ok(m) = files::read(rt, 1, b"FIRST", &mut a) else {
        return;
    };
    let mut b = [0u8; LONGEST + 1];
    let Ok(n) = files::read(rt, 2, b"SECOND", &mut b) else {
        return;
    };
    compare(&a[..m], &b[..n], asked);
}

fn options(rt: &impl Env, n: usize) -> Asked {
    Asked {
        first_form: words::form_of(saying::has_option(rt, 3, n, b"first-form2")),
        second_form: words::form_of(saying::has_option(rt, 3, n, b"second-form2")),
        is_table: saying::has_option(rt, 3, n, b"table"),
        version: 0,
        column: 0,
    }
}

fn words_of(n: usize, o: Asked) -> usize {
    let first = saying::one_if(o.first_form == FORM_2);
    let second = saying::one_if(o.second_form == FORM_2);
    saying::words_before(n, first + second + saying::one_if(o.is_table))
}

fn main(rt: HostRuntime) {
    let n = saying::argument_count(&rt);
    if saying::asks_help(&rt, n) {
        help();
        return;
    }
    let o = options(&rt, n);
    if words_of(n, o) == 2 {
        read_lists(&rt, o);
        return;
    }
    saying::print_usage(b"compare FIRST SECOND [first-form2] [second-form2] [table]");
}
