// Shows the train that christening records describe, and the properties of each vehicle by their rows and names.
#![tactic(auto)]

mod given;
mod names;

ghost use Rattle.std.specs.Prelude.{◌≤◌};
ghost use Rattle.saying.specs.Lines.{InRoom};

use files::Host;
use gateway::{Level, Property};
use given::{Given, OCTETS, RECORDS};
use saying::{Line, Page, STDOUT};
use std::rt::Env;

fn help() {
    io::write_all(
        STDOUT,
        b"christening RECORDS [leading V] [led V].. [table]

Shows the train that christening records describe, and what holds of each
vehicle by table E.1 of UIC 556.

RECORDS   a file with the records, 56 octets a vehicle, in train order: octets
          1-44 of its gateway's frame, and of the frame its own 12 behind them
V         a vehicle of them, from 1

A record does not say which vehicle leads and which are led: `leading 1` and
`led 4` do, in any order, `led` as often as there are such vehicles.
Prints a line for each vehicle with its marks (leading, coach, tractive, led,
sleeping), as `vehicle 1  leading tractive`, or a dash for none. A coach has any
of the rows 1, 2, 9, 12 and 13, a tractive unit 38 or 39, a sleeping car 13.
Then for each vehicle a line with its number, and below it one for each property
that holds, with its row, the place of its bit (octet/bit) and its name, as
`   13  51/4  Vehicle is a sleeping car`. Names are those of table C.3.
With the word `table` it prints a line of names, then a line for each vehicle
and property that holds, each of 6 columns with a tab between: vehicle, row,
level (gateway or vehicle), octet, bit, name.

What breaks a rule gets one line that begins with `refused` and the number of
documents 01 and 02:
  31 records not whole: the file is no multiple of 56 octets
  17 consist empty or above 63
  18 consist rule broken: two lead, or one led leads or is not tractive
A file that cannot be read, another word or a vehicle that the file does not
have gets one line that begins with `error`.
",
    );
}

fn say_vehicle(vehicle: usize) -> Line
    ensures { result.at ≤ 240 }
{
    saying::say_number(saying::say(saying::empty(), b"vehicle "), vehicle as u64)
}

fn say_if(line: Line, holds: bool, text: &[u8]) -> Line
    ensures { InRoom line.at result.at }
{
    if holds {
        return saying::say(line, text);
    }
    line
}

// A vehicle of the train, by its mark octet.
fn train_line(vehicle: usize, mark: u8) -> Line
    ensures { result.at ≤ 240 }
{
    let l = saying::put(say_vehicle(vehicle), b' ');
    let l = say_if(l, mark == 0, b" -");
    let l = say_if(l, mark % 2 == 1, b" leading");
    let l = say_if(l, mark / 2 % 2 == 1, b" coach");
    let l = say_if(l, mark / 4 % 2 == 1, b" tractive");
    let l = say_if(l, mark / 8 % 2 == 1, b" led");
    say_if(l, mark / 16 % 2 == 1, b" sleeping")
}

fn print_train(page: &mut Page, marks: &[u8; 63], n: usize) {
    for v in 0..n {
        saying::add(page, train_line(v + 1, given::octet_at(marks, v)));
    }
}

fn property_line(row: u32, p: Property) -> Line
    ensures { result.at ≤ 240 }
{
    let l = saying::say_right(saying::empty(), 5, row as u64);
    let l = saying::say_number(saying::say(l, b"  "), p.octet as u64);
    let l = saying::say_number(saying::put(l, b'/'), p.bit as u64);
    names::say_name(saying::say(l, b"  "), row)
}

fn say_level(line: Line, level: Level) -> Line
    ensures { InRoom line.at result.at }
{
    match level {
        Level::Gateway => saying::say(line, b"\tgateway"),
        Level::Vehicle => saying::say(line, b"\tvehicle"),
    }
}

fn property_row(vehicle: usize, row: u32, p: Property) -> Line
    ensures { result.at ≤ 240 }
{
    let l = saying::say_number(saying::empty(), vehicle as u64);
    let l = say_level(saying::say_tab(l, row as u64), p.level);
    let l = saying::say_tab(saying::say_tab(l, p.octet as u64), p.bit as u64);
    names::say_name(saying::put(l, b'\t'), row)
}

fn print_property(page: &mut Page, vehicle: usize, row: u32, p: Property, table: bool) {
    if !p.holds {
        return;
    }
    if table {
        saying::add(page, property_row(vehicle, row, p));
    } else {
        saying::add(page, property_line(row, p));
    }
}

// The properties that hold in a record, in the order of the rows.
fn print_properties(page: &mut Page, vehicle: usize, record: &[u8; 56], table: bool) {
    for row in 1..=152 {
        if let Some(p) = gateway::property_of(record, row) {
            print_property(page, vehicle, row, p, table);
        }
    }
}

// Of vehicle v, counted from 0.
fn print_vehicle(page: &mut Page, records: &[u8], v: usize, table: bool) {
    let record = given::record_of(records, v);
    let vehicle = v.wrapping_add(1);
    if !table {
        saying::add(page, say_vehicle(vehicle));
    }
    print_properties(page, vehicle, &record, table);
}

fn print_vehicles(page: &mut Page, records: &[u8], n: usize, table: bool) {
    for v in 0..n {
        print_vehicle(page, records, v, table);
    }
}

fn print_all(records: &[u8], marks: &[u8; 63], n: usize, table: bool) {
    let mut page = saying::new_page();
    if table {
        let l = saying::say(saying::empty(), b"vehicle\trow\tlevel\toctet\tbit\tname");
        saying::add(&mut page, l);
    } else {
        print_train(&mut page, marks, n);
    }
    print_vehicles(&mut page, records, n, table);
    saying::flush(&mut page);
}

fn answer(records: &[u8], pairs: &[u8], table: bool) {
    let mut marks = [0u8; 63];
    match gateway::christen(records, pairs, &mut marks) {
        Err(f) => words::print_refused(f),
        Ok(n) => print_all(records, &marks, n, table),
    }
}

// As many pairs as records, so that 31 tells of the file alone; it comes before a vehicle that the file does not have.
fn judge(rt: &impl Env, records: &[u8], pairs: &[u8; RECORDS], g: Given) {
    let n = records.len() / 56;
    if records.len() % 56 == 0 && !given::has_vehicles(rt, g, n) {
        return;
    }
    answer(records, given::first(pairs, n), g.table);
}

fn ask(rt: &impl Host, n: usize) {
    let mut pairs = [0u8; RECORDS];
    let g = given::read_words(rt, n, &mut pairs);
    if !g.ok {
        return;
    }
    let mut records = [0u8; OCTETS + 1];
    let Ok(n) = files::read(rt, 1, b"RECORDS", &mut records) else {
        return;
    };
    if n == OCTETS + 1 {
        files::print_long(rt, 1, b"RECORDS", OCTETS as u64);
        return;
    }
    judge(rt, &records[..n], &pairs, g);
}

fn main(rt: HostRuntime) {
    let n = saying::argument_count(&rt);
    if saying::asks_help(&rt, n) {
        help();
        return;
    }
    if 2 <= n {
        ask(&rt, n);
        return;
    }
    saying::print_usage(b"christening RECORDS [leading V] [led V].. [table]");
}
