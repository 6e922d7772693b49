// The marked cases (a) to (l) of document 01, run on the compiled calls. The table that is proved stands in crates/tables/specs/Marked.antt.
ghost use Rattle.saying.specs.Lines.{InRoom};

use gateway::{FORM_1, Kind, Refusal, STORE, Shown, TELEGRAM};
use saying::Line;

// The list L, for voltage selection (4.3): octet 54 bits 0-3, check 41 2/3.
const L: [u8; 44] = [
    0x00, 0x01, 0x01, 0x42, 0x00, 0x01, 0x01, 0xA8, 0x04, 0x01, 0x01, 0x01, 0x00, 0x00, 0x13, 0x88,
    0x00, 0x00, 0x00, 0x00, 0x00, 0x00, 0x00, 0x02, 0x00, 0x00, 0x00, 0x00, 0x00, 0x06, 0x00, 0x00,
    0x00, 0x0F, 0x00, 0x0F, 0x00, 0x01, 0x00, 0x00, 0x01, 0x00, 0x00, 0x00,
];

fn say_count(line: Line, name: &[u8], n: u64) -> Line
    ensures { InRoom line.at result.at }
{
    saying::say_number(saying::say(line, name), n)
}

fn say_refused(line: Line, f: Refusal) -> Line
    ensures { InRoom line.at result.at }
{
    say_count(line, b" refused ", f.number() as u64)
}

// A list of one speed: R1 octets 51-52, no check.
const V: [u8; 24] = [
    0x00, 0x00, 0x00, 0x01, 0x01, 0x90, 0x10, 0x01, 0x00, 0x01, 0x00, 0x00, 0x13, 0x88, 0x00, 0x00,
    0x00, 0x00, 0x00, 0x00, 0x00, 0x00, 0x00, 0x00,
];

// Vehicle 1 sends R1, version 1, with these octets 41 and 54, and a raw value in octets 51-52. What is refused shows in what is read.
fn heard_at(store: &mut [u8; STORE], o41: u8, o54: u8, raw: u64, stamp: u32) {
    let mut telegram = [0u8; TELEGRAM];
    telegram[0] = 0x11;
    telegram[1] = 0x01;
    telegram[40] = o41;
    telegram[50] = (raw / 256 % 256) as u8;
    telegram[51] = (raw % 256) as u8;
    telegram[53] = o54;
    let _ = gateway::take(store, 1, stamp, &telegram);
}

// One reading: the value and the reason.
fn say_read(line: Line, store: &[u8; STORE], clock: u32) -> Line
    ensures { InRoom line.at result.at }
{
    match gateway::read(&L, FORM_1, store, clock, 1, 0) {
        Ok(r) => say_count(
            say_count(line, b" value ", r.value),
            b" reason ",
            r.reason.number() as u64,
        ),
        Err(f) => say_refused(line, f),
    }
}

fn say_age(line: Line, store: &[u8; STORE], clock: u32) -> Line
    ensures { InRoom line.at result.at }
{
    match gateway::holding(store, clock, 1) {
        Ok(Some(h)) => say_count(line, b" age ", h.age as u64),
        Ok(None) => say_count(line, b" age ", 0),
        Err(f) => say_refused(line, f),
    }
}

fn reads(name: &[u8], o41: u8, o54: u8, stamp: u32, clock: u32) {
    let mut store = [0u8; STORE];
    heard_at(&mut store, o41, o54, 0, stamp);
    let l = say_read(saying::say(saying::empty(), name), &store, clock);
    saying::print(say_age(l, &store, clock));
}

fn say_octet(line: Line, bus: &[u8; 1]) -> Line
    ensures { InRoom line.at result.at }
{
    say_count(line, b" octet ", bus[0] as u64)
}

// One octet of data, marshalled: what it is afterwards, and the live count.
fn marshals(name: &[u8], store: &[u8; STORE], clock: u32) {
    let mut bus = [0xABu8; 1];
    let l = saying::say(saying::empty(), name);
    let l = match gateway::marshal(&L, FORM_1, store, clock, &mut bus) {
        Ok(n) => say_count(l, b" live ", n as u64),
        Err(f) => say_refused(l, f),
    };
    saying::print(say_octet(l, &bus));
}

// The speed of vehicle 1, in whole km/h, and the reason.
fn say_shown(line: Line, store: &[u8; STORE]) -> Line
    ensures { InRoom line.at result.at }
{
    let Ok(s) = gateway::show(&V, FORM_1, store, 5000, 1, 0, Kind::Speed) else {
        return saying::say(line, b" refused");
    };
    let Shown::Speed(v) = s.shown else {
        return saying::say(line, b" no speed");
    };
    if v == 256.0 {
        return say_count(
            saying::say(line, b" speed 256"),
            b" reason ",
            s.reason.number() as u64,
        );
    }
    saying::say(line, b" another speed")
}

// A raw value that vehicle 1 sends as a speed.
fn speeds(name: &[u8], raw: u64) {
    let mut store = [0u8; STORE];
    heard_at(&mut store, 0, 0, raw, 0);
    saying::print(say_shown(saying::say(saying::empty(), name), &store));
}

pub fn run() {
    reads(b"(a)", 0x10, 0x40, 0, 5000);
    reads(b"(b)", 0x10, 0x40, 0, 5001);
    reads(b"(c)", 0x20, 0x40, 0, 5000);
    reads(b"(d)", 0x00, 0x40, 0, 5000);
    reads(b"(e)", 0x30, 0x40, 0, 5000);
    reads(b"(f)", 0x10, 0x70, 0, 5000);
    reads(b"(g)", 0x10, 0xF0, 0, 5000);
    reads(b"(h)", 0x10, 0x40, 4294967000, 4000);
    reads(b"(i)", 0x10, 0x40, 1000, 999);
    let mut store = [0u8; STORE];
    marshals(b"(k)", &store, 5000);
    heard_at(&mut store, 0x10, 0x40, 0, 0);
    marshals(b"(j)", &store, 5000);
    speeds(b"(l)", 16384);
}
