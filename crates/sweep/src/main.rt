// Marks in a store file, as expired, what is too old for any time limit.
#![tactic(auto)]

ghost use Rattle.std.specs.Prelude.{◌≤◌, ◌<◌};

use files::{Host, Rules};
use gateway::{STORE, VEHICLES};
use saying::STDOUT;
use std::fs::File;
use words::Vehicles;

// The octets of a vehicle's slot. The first is the only one that a sweep may change.
const SLOT: usize = STORE / VEHICLES;

fn help() {
    io::write_all(
        STDOUT,
        b"sweep STORE CLOCK

Marks every vehicle in STORE as expired whose telegram is more than 600000 ms
old at CLOCK, the longest time limit that a signal list may set. Until a new
telegram is taken from it, its signals with a limit are too old, and those with
none are read as before. The counter comes round after 49.7 days: to be sure
that no old telegram looks new then, sweep at least every 2147483648 ms (24.8
days).

STORE     a store; `take` makes one and fills it
CLOCK     the millisecond counter now, 0 to 4294967295

Prints one line, as `swept at 700000, expired 3: 1-2 63`: how many vehicles were
marked, and which. Those that were marked before are not among them. Where
nothing was swept the line begins with `refused` and the number of document 01,
or with `error`, and STORE is as it was. It is replaced whole, by way of
STORE.new, with its owner and mode but without access lists; links stay; one
that is read-only or has hard links is an error. STORE.lock names the process at
work: others wait, and where it holds on for five seconds their line begins with
`error: busy`. What a killed one left is taken away.
",
    );
}

fn is_marked(old: &[u8], new: &[u8], vehicle: usize) -> bool
    requires { (1 ≤ vehicle) × (vehicle < 64) }
{
    let at = SLOT * (vehicle - 1);
    at < old.len() && at < new.len() && old[at] != new[at]
}

// The vehicles that the sweep has marked.
fn marked(old: &[u8], new: &[u8]) -> Vehicles {
    let mut s = words::no_vehicles();
    for v in 1..=VEHICLES {
        if is_marked(old, new, v) {
            s = words::with_vehicle(s, v);
        }
    }
    s
}

fn print_swept(clock: u32, vehicles: Vehicles) {
    let l = saying::say_number(saying::say(saying::empty(), b"swept at "), clock as u64);
    let l = saying::say_number(saying::say(l, b", expired "), vehicles.count as u64);
    if vehicles.count == 0 {
        saying::print(l);
        return;
    }
    saying::print(words::say_vehicles(saying::put(l, b':'), vehicles));
}

fn sweep_store(rt: &impl Host, file: File, path: &[u8], clock: u32, old: &[u8], store: &mut [u8]) {
    if let Err(f) = gateway::sweep(store, clock) {
        files::drop_new(rt, path, file);
        words::print_refused_store(f, store.len());
        return;
    }
    if files::commit(rt, 1, b"STORE", path, file, store) {
        print_swept(clock, marked(old, store));
    }
}

// The store is read and replaced while its lock keeps other programs waiting; the new one is open as `file`.
fn sweep_into(rt: &impl Host, file: File, path: &[u8], clock: u32) {
    let mut store = [0u8; STORE + 1];
    let Ok(n) = files::read_at(rt, 1, b"STORE", path, &mut store) else {
        files::drop_new(rt, path, file);
        return;
    };
    let old = store;
    sweep_store(rt, file, path, clock, &old, &mut store[..n]);
}

fn sweep_at(rt: &impl Host, path: &[u8], clock: u32) {
    let rules = Rules {
        is_old: true,
        is_new: false,
        first: None,
        second: None,
    };
    if let Some(file) = files::begin(rt, 1, b"STORE", path, rules) {
        sweep_into(rt, file, path, clock);
    }
}

fn main(rt: HostRuntime) {
    let n = saying::argument_count(&rt);
    if saying::asks_help(&rt, n) {
        help();
        return;
    }
    if n != 3 {
        saying::print_usage(b"sweep STORE CLOCK");
        return;
    }
    let Some(clock) = saying::clock_argument(&rt, 2) else {
        return;
    };
    let mut path = io::buffer();
    let k = files::target_of(&rt, 1, &mut path);
    sweep_at(&rt, &path[..k], clock);
}
