// Takes a telegram of a vehicle into a store file, or makes a new store.
#![tactic(auto)]

ghost use Rattle.saying.specs.Lines.{InRoom};

use files::{Host, Rules};
use gateway::{Refusal, STORE, TELEGRAM};
use saying::{Line, STDOUT};
use std::fs::File;

fn help() {
    io::write_all(
        STDOUT,
        b"take STORE VEHICLE CLOCK TELEGRAM   takes a telegram of a vehicle into a store
take new STORE                      makes a store in which no vehicle was heard

STORE     a store, which `take new` makes
VEHICLE   1 to 63
CLOCK     the millisecond counter when the telegram was heard, 0 to 4294967295
TELEGRAM  the octets of an R1 or R2 (128) or of an R3 (40)

Prints one line, as `taken R1 version 2 vehicle 1 at 5000`. Where nothing was
taken the line begins with `refused` and the number of document 01, or with
`error`, and STORE is as it was. It is replaced whole, by way of STORE.new, with
its owner and mode but without access lists; links stay; one that is read-only
or has hard links is an error. STORE.lock names the process at work: others
wait, and where it holds on for five seconds their line begins with
`error: busy`. What a killed one left is taken away.
",
    );
}

fn make_store(rt: &impl Host) {
    let store = [0u8; STORE];
    if files::make(rt, 2, b"STORE", &store) {
        io::write_all(STDOUT, b"made a store, no vehicle heard\n");
    }
}

fn print_taken(store: &[u8], vehicle: usize, clock: u32) {
    let Ok(Some(h)) = gateway::holding(store, clock, vehicle) else {
        return;
    };
    let l = saying::say(saying::empty(), b"taken ");
    let l = words::say_telegram(l, h.kind);
    let l = saying::say_number(saying::say(l, b" version "), h.version as u64);
    let l = saying::say_number(saying::say(l, b" vehicle "), vehicle as u64);
    saying::print(saying::say_number(saying::say(l, b" at "), clock as u64));
}

// The type that octet 1 says; a telegram that is refused for its length has one.
fn kind_of(telegram: &[u8]) -> usize {
    match telegram {
        [head, ..] => (*head % 16) as usize,
        [] => 0,
    }
}

// A length that is not the type's: how long the telegram is, and how long it has to be.
fn say_lengths(line: Line, telegram: &[u8]) -> Line
    ensures { InRoom line.at result.at }
{
    let kind = kind_of(telegram);
    let n = telegram.len();
    let l = if TELEGRAM < n {
        saying::say(line, b": more than 128 octets, ")
    } else {
        saying::say(
            saying::say_number(saying::say(line, b": "), n as u64),
            b" octets, ",
        )
    };
    let l = saying::say(words::say_telegram(l, kind), b" has ");
    saying::say_number(l, if kind == 3 { 40 } else { 128 })
}

fn print_refused(f: Refusal, octets: usize, telegram: &[u8]) {
    let l = words::say_refused_store(f, octets);
    saying::print(match f {
        Refusal::TelegramLength => say_lengths(l, telegram),
        _ => l,
    });
}

fn take_store(
    rt: &impl Host,
    file: File,
    path: &[u8],
    vehicle: usize,
    clock: u32,
    telegram: &[u8],
    store: &mut [u8],
) {
    if let Err(f) = gateway::take(store, vehicle, clock, telegram) {
        files::drop_new(rt, path, file);
        print_refused(f, store.len(), telegram);
        return;
    }
    if files::commit(rt, 1, b"STORE", path, file, store) {
        print_taken(store, vehicle, clock);
    }
}

// The store is read and replaced while its lock keeps other takes waiting; the new one is open as `file`.
fn take_into(rt: &impl Host, file: File, path: &[u8], vehicle: usize, clock: u32, telegram: &[u8]) {
    let mut store = [0u8; STORE + 1];
    let Ok(n) = files::read_at(rt, 1, b"STORE", path, &mut store) else {
        files::drop_new(rt, path, file);
        return;
    };
    take_store(rt, file, path, vehicle, clock, telegram, &mut store[..n]);
}

fn take_at(rt: &impl Host, path: &[u8], vehicle: usize, clock: u32, telegram: &[u8]) {
    let rules = Rules {
        is_old: true,
        is_new: false,
        first: Some(4),
        second: None,
    };
    if let Some(file) = files::begin(rt, 1, b"STORE", path, rules) {
        take_into(rt, file, path, vehicle, clock, telegram);
    }
}

fn take_words(rt: &impl Host) {
    let Some(vehicle) = saying::number_argument(rt, 2, b"VEHICLE", 4294967295) else {
        return;
    };
    let Some(clock) = saying::clock_argument(rt, 3) else {
        return;
    };
    let mut telegram = [0u8; TELEGRAM + 1];
    let Ok(n) = files::read(rt, 4, b"TELEGRAM", &mut telegram) else {
        return;
    };
    let mut path = io::buffer();
    let k = files::target_of(rt, 1, &mut path);
    take_at(rt, &path[..k], vehicle as usize, clock, &telegram[..n]);
}

fn main(rt: HostRuntime) {
    let n = saying::argument_count(&rt);
    if saying::asks_help(&rt, n) {
        help();
        return;
    }
    if n == 3 && saying::is_word(&rt, 1, b"new") {
        make_store(&rt);
        return;
    }
    if n == 5 {
        take_words(&rt);
        return;
    }
    saying::print_usage(b"take STORE VEHICLE CLOCK TELEGRAM, or take new STORE");
}
