// Judges a supplier's recording of marshalling step by step, and names the first wrong bit.
#![tactic(auto)]

mod pieces;
mod telling;

use files::Host;
use gateway::MOST_STEPS;
use pieces::{Area, Listed, ROOM, Step, first};
use saying::STDOUT;
use std::fs::File;

// How far the judging is: so many steps accepted, and so many octets in the last one's data after.
#[derive(Clone, Copy, Debug, PartialEq, Eq)]
struct Course {
    steps: usize,
    last: usize,
}

fn help() {
    io::write_all(
        STDOUT,
        b"recording FILE

Judges a supplier's recording of marshalling: whether the data after each step
are what our rules give, bits outside the routes included. docs/RECORDINGS.md
says how one is written.

FILE      a recording. All numbers have their high octet first, and an area is
          4 octets with its length, then its octets:
            octets 1-8    the letters DUSTREC and the octet 1
            octet 9       the form of the signal list, 1 or 2
            an area       the list
          then a step after the other up to the end, at most 1,000:
            4 octets      the clock
            three areas   the store, the data before, the data after
          Areas of up to 65536 octets are held.

Prints `accepted, 3 steps`; or the first step that is wrong, counted from 1, its
clock and its first wrong bit, and below it the route that the bit lies in, with
its number, its field of the data, vehicle and signal, what our reading gives,
and why, and what the data after have there:
  wrong in step 2 at clock 9000: octet 3 bit 6
  route 2 to octet 3 bits 4-7  vehicle 1  R1 octet 54 bits 0-3
  ours                      4  0 live ok
  theirs                    6
or, for a bit that lies in none:
  in no route: ours 0, theirs 1
Octets count from 1 and bits from 0, routes from 0 as `marshal` counts them.
`believe help` lists the reasons.
The first step that breaks a rule gets one line that begins with `refused` and
the number of documents 01 and 02, and names the step:
  38 more than 1,000 steps
  1-4 the list, 5 the store's length, 12 data shorter than a route's end
  36 data areas differ in length
  37 step does not follow on: its data before are not the last one's data after
A recording of no steps is accepted if its list is.
A file that cannot be read, is no recording, ends within a step or has an area
that is too long gets one line that begins with `error`. What stands behind the
step that ends the judging is not looked at.
A recording of more than 100 steps is told of on standard error as it is read,
as `recording: 100 steps`.
The exit status is as of `diff`: 0 accepted, 1 wrong, 2 refused or error.
",
    );
}

// The number of the step that is taken in next, counted from 1.
fn next_of(c: Course) -> usize {
    c.steps.wrapping_add(1)
}

// A recording that has ended: its list is all that is left to judge where it has no steps.
fn conclude(list: &[u8], form: u8, c: Course) {
    match gateway::judge(list, form) {
        Err(f) => words::print_refused_list(list, form, f),
        Ok(_) => telling::print_accepted(c.steps),
    }
}

fn report(c: Course) {
    if c.steps % 100 == 0 && c.steps != 0 {
        telling::print_progress(c.steps);
    }
}

// One step more, judged: `last` holds the data after of the one before it. None where the judging is over.
fn judge_step(
    list: &[u8],
    form: u8,
    c: Course,
    s: Step,
    store: &[u8],
    last: &[u8],
    before: &[u8],
    after: &[u8],
) -> Option<Course> {
    let steps = next_of(c);
    let last = first(last, c.last);
    let store = first(store, s.store);
    let before = first(before, s.before);
    let after = first(after, s.after);
    let clock = s.clock;
    match gateway::check_step(list, form, c.steps, last, store, clock, before, after) {
        Ok(None) => Some(Course {
            steps,
            last: s.after,
        }),
        Ok(Some(w)) => {
            telling::print_wrong(list, form, steps, store, clock, before, after, w);
            None
        }
        Err(f) => {
            telling::print_refused(list, form, steps, store.len(), f);
            None
        }
    }
}

// Takes in one step more and judges it; its data after stay in `after`. None where the judging is over.
fn one_step(
    rt: &impl Host,
    file: &mut File,
    list: &[u8],
    form: u8,
    c: Course,
    store: &mut Area,
    last: &Area,
    before: &mut Area,
    after: &mut Area,
) -> Option<Course> {
    match pieces::take_step(rt, file, next_of(c), store, before, after) {
        Err(_) => None,
        Ok(None) => {
            conclude(list, form, c);
            None
        }
        Ok(Some(s)) => {
            report(c);
            judge_step(list, form, c, s, store, last, before, after)
        }
    }
}

// Step after step, with one turn for the step past the last that may be. Of x and y one has the last step's data after, and the other gets those of
// this one.
fn go_through(rt: &impl Host, file: &mut File, list: &[u8], form: u8) {
    let mut store = [0u8; ROOM];
    let mut before = [0u8; ROOM];
    let mut x = [0u8; ROOM];
    let mut y = [0u8; ROOM];
    let mut c = Course { steps: 0, last: 0 };
    for turn in 0..=MOST_STEPS {
        let next = if turn % 2 == 0 {
            one_step(rt, file, list, form, c, &mut store, &x, &mut before, &mut y)
        } else {
            one_step(rt, file, list, form, c, &mut store, &y, &mut before, &mut x)
        };
        let Some(next) = next else {
            return;
        };
        c = next;
    }
}

fn judge_steps(rt: &impl Host, file: &mut File, list: &Area, l: Listed) {
    go_through(rt, file, first(list, l.octets), l.form);
}

fn judge(rt: &impl Host, file: &mut File) {
    let mut list = [0u8; ROOM];
    if let Ok(l) = pieces::take_head(rt, file, &mut list) {
        judge_steps(rt, file, &list, l);
    }
}

fn ask(rt: &impl Host) {
    if let Some(mut file) = files::open(rt, 1, b"FILE") {
        judge(rt, &mut file);
    }
}

fn main(rt: HostRuntime) {
    let n = saying::argument_count(&rt);
    if saying::asks_help(&rt, n) {
        help();
        return;
    }
    if n == 2 {
        ask(&rt);
        return;
    }
    saying::print_usage(b"recording FILE");
}
