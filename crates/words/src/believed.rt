// What stands in a store, and what is read out of it, in words.
ghost use Rattle.std.specs.Prelude.{◌≤◌};
ghost use Rattle.saying.specs.Lines.{InRoom};

use crate::said::{say_reason, say_telegram};
use crate::vehicles::{Vehicles, no_vehicles, say_vehicles, with_vehicle};
use gateway::{Held, VEHICLES};
use saying::{Line, Page, add, empty, put, say, say_number, say_right, say_tab};

// What is held of a vehicle: nothing in what is no store.
fn held_of(store: &[u8], clock: u32, vehicle: usize) -> Option<Held> {
    gateway::holding(store, clock, vehicle).unwrap_or(None)
}

// From the previous telegram of a vehicle to its last, after the first its stamp; 0 in what is no store.
fn gap_of(store: &[u8], vehicle: usize) -> u64 {
    gateway::gap(store, vehicle).unwrap_or(0) as u64
}

fn say_gap(line: Line, store: &[u8], vehicle: usize) -> Line
    ensures { InRoom line.at result.at }
{
    say(
        say_number(say(line, b" gap "), gap_of(store, vehicle)),
        b" ms",
    )
}

// An age above half of the counter's range: the stamp is after the clock rather than so long before it.
fn say_age(line: Line, age: u64) -> Line
    ensures { InRoom line.at result.at }
{
    let l = say(say_number(say(line, b" age "), age), b" ms");
    if 2147483648 <= age {
        return say(l, b" (stamp after the clock)");
    }
    l
}

// What is held of a vehicle: type, version, age and gap of its telegram.
fn say_held(line: Line, store: &[u8], clock: u32, vehicle: usize) -> Line
    ensures { InRoom line.at result.at }
{
    let Some(h) = held_of(store, clock, vehicle) else {
        return say(line, b"never heard");
    };
    let l = say_telegram(line, h.kind);
    let l = say_number(say(l, b" version "), h.version as u64);
    let l = if h.expired {
        say(l, b" expired")
    } else {
        say_age(l, h.age as u64)
    };
    say_gap(l, store, vehicle)
}

fn say_vehicle(vehicle: usize) -> Line
    ensures { result.at ≤ 240 }
{
    say(say_number(say(empty(), b"vehicle "), vehicle as u64), b": ")
}

// The head line of a vehicle.
pub fn print_head(page: &mut Page, store: &[u8], clock: u32, vehicle: usize) {
    add(page, say_held(say_vehicle(vehicle), store, clock, vehicle));
}

// The same as two gateways have it, each by a store and a clock of its own.
pub fn print_heads(
    page: &mut Page,
    first: &[u8],
    first_clock: u32,
    second: &[u8],
    second_clock: u32,
    vehicle: usize,
) {
    let l = say_held(say_vehicle(vehicle), first, first_clock, vehicle);
    add(
        page,
        say_held(say(l, b" | "), second, second_clock, vehicle),
    );
}

// The same as the next columns of a table: telegram, version and age, or `expired` for the age; a dash each where it was never heard.
pub fn say_held_tabs(line: Line, store: &[u8], clock: u32, vehicle: usize) -> Line
    ensures { InRoom line.at result.at }
{
    let Some(h) = held_of(store, clock, vehicle) else {
        return say(line, b"\t-\t-\t-");
    };
    let l = say_tab(say_telegram(put(line, b'\t'), h.kind), h.version as u64);
    if h.expired {
        return say(l, b"\texpired");
    }
    say_tab(l, h.age as u64)
}

// Those columns behind the vehicle's.
pub fn say_head(line: Line, store: &[u8], clock: u32, vehicle: usize) -> Line
    ensures { InRoom line.at result.at }
{
    say_held_tabs(say_number(line, vehicle as u64), store, clock, vehicle)
}

// The gap as the next column of a table, a dash where the vehicle was never heard.
pub fn say_gap_tab(line: Line, store: &[u8], vehicle: usize) -> Line
    ensures { InRoom line.at result.at }
{
    if is_heard(store, vehicle) {
        return say_tab(line, gap_of(store, vehicle));
    }
    say(line, b"\t-")
}

pub fn is_heard(store: &[u8], vehicle: usize) -> bool {
    held_of(store, 0, vehicle).is_some()
}

// By either of two gateways, each with a store of its own.
pub fn is_heard_by(first: &[u8], second: &[u8], vehicle: usize) -> bool {
    is_heard(first, vehicle) || is_heard(second, vehicle)
}

fn never_heard(first: &[u8], second: &[u8]) -> Vehicles {
    let mut s = no_vehicles();
    for v in 1..=VEHICLES {
        if !is_heard_by(first, second, v) {
            s = with_vehicle(s, v);
        }
    }
    s
}

// The vehicles that neither of the two has heard, in one line.
pub fn print_never_by(page: &mut Page, first: &[u8], second: &[u8]) {
    let head = say(empty(), b"never heard:");
    let never = never_heard(first, second);
    if never.count == 0 {
        add(page, say(head, b" none"));
        return;
    }
    add(page, say_vehicles(head, never));
}

// Those of one store.
pub fn print_never(page: &mut Page, store: &[u8]) {
    print_never_by(page, store, store);
}

// How often each reason was given, by its number.
#[derive(Clone, Copy, Debug, PartialEq, Eq)]
pub struct Totals {
    pub of: [u64; 9],
}

pub fn no_totals() -> Totals {
    Totals { of: [0u64; 9] }
}

pub fn count_reason(totals: Totals, reason: u8) -> Totals {
    let mut t = totals;
    let i = reason as usize;
    if i < 9 {
        t.of[i] = t.of[i].wrapping_add(1);
    }
    t
}

fn print_total(page: &mut Page, reason: u8, n: u64) {
    if 0 < n {
        let l = say_right(say(empty(), b"total"), 12, n);
        add(page, say_reason(say(l, b"  "), reason));
    }
}

// A line for each reason that was given.
pub fn print_totals(page: &mut Page, totals: Totals) {
    for (reason, &n) in (0..9).zip(&totals.of) {
        print_total(page, reason, n);
    }
}
