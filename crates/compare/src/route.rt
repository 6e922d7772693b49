// The routes that were added, removed or changed. No rule of extending is about them.
ghost use Rattle.std.specs.Prelude.{◌≤◌};
ghost use Rattle.saying.specs.Lines.{InRoom};

use crate::changes::changed_routes;
use crate::signal::{Side, side_at};
use crate::telling::{
    Asked, Field, change_of, form_of_table, say_arrow, say_change, say_marked, say_name, tell,
};
use gateway::Changed;
use saying::{Line, Page, empty, say, say_tab};

// A route as one list has it, with its signal there.
#[derive(Clone, Copy, Debug, PartialEq, Eq)]
struct Routed {
    start: usize,
    vehicle: usize,
    // of the list
    form: u8,
    side: Side,
}

fn routed_at(list: &[u8], form: u8, k: usize) -> Option<Routed> {
    let r = gateway::route_entry(list, form, k).ok()??;
    Some(Routed {
        start: r.start,
        vehicle: r.vehicle,
        form,
        side: side_at(list, form, r.signal)?,
    })
}

// The destination, as wide as the first list's signal, where it has the route.
fn say_head(x: Option<Routed>, y: Option<Routed>) -> Line
    ensures { result.at ≤ 240 }
{
    let l = say_marked(0, change_of(x, y));
    let Some(r) = x.or(y) else {
        return l;
    };
    words::say_field(say(l, b"route to "), r.start, r.side.signal.width)
}

// The columns that are alike in all rows of a route, which has no serial numbers.
fn say_columns(asked: Asked, x: Option<Routed>, y: Option<Routed>) -> Line
    ensures { result.at ≤ 240 }
{
    let l = say_change(say(empty(), b"route\t"), change_of(x, y));
    let start = x.or(y).map_or(0, |r| r.start);
    let l = say_tab(say(l, b"\t-"), start as u64);
    let form = form_of_table(asked);
    let l = words::say_serial_tab(words::say_serial_tab(l, form, 0), form, 0);
    say_tab(l, 0)
}

fn begun(asked: Asked, x: Option<Routed>, y: Option<Routed>) -> Line
    ensures { result.at ≤ 240 }
{
    if asked.is_table {
        return say_columns(asked, x, y);
    }
    saying::pad(say_head(x, y), asked.column)
}

fn say_signal(line: Line, r: Routed) -> Line
    ensures { InRoom line.at result.at }
{
    words::say_signal(line, r.form, r.side.signal, r.side.serial)
}

fn say_signals(line: Line, x: Option<Routed>, y: Option<Routed>) -> Line
    ensures { InRoom line.at result.at }
{
    match (x, y) {
        (Some(x), Some(y)) => say_signal(say_arrow(say_signal(line, x)), y),
        (Some(r), None) | (None, Some(r)) => say_signal(line, r),
        (None, None) => line,
    }
}

// By type and start.
fn place_of(r: Routed) -> [u64; 2] {
    let s = r.side.signal;
    [s.kind as u64, s.start as u64]
}

// Whether both lists have the route, and the same signal in it.
fn is_same(x: Option<Routed>, y: Option<Routed>) -> bool {
    x.zip(y).is_some_and(|(x, y)| place_of(x) == place_of(y))
}

// In the table by type and start, a row each.
fn tell_places(
    page: &mut Page,
    asked: Asked,
    line: Line,
    a: Option<Routed>,
    b: Option<Routed>,
) -> Line
    ensures { InRoom line.at result.at }
{
    let c = change_of(a, b);
    let x = a.map_or([0; 2], |r| place_of(r));
    let y = b.map_or([0; 2], |r| place_of(r));
    let t = Field::Telegram;
    let n = Field::Number;
    let l = tell(page, asked, line, c, b"signal_type", t, x[0], y[0]);
    tell(page, asked, l, c, b"signal_start", n, x[1], y[1])
}

fn tell_signal(
    page: &mut Page,
    asked: Asked,
    line: Line,
    x: Option<Routed>,
    y: Option<Routed>,
) -> Line
    ensures { InRoom line.at result.at }
{
    if asked.is_table {
        return tell_places(page, asked, line, x, y);
    }
    if is_same(x, y) {
        return line;
    }
    say_signals(say_name(page, line, b"signal"), x, y)
}

fn vehicle_of(r: Option<Routed>) -> u64 {
    r.map_or(0, |r| r.vehicle as u64)
}

fn print_one(page: &mut Page, a: &[u8], b: &[u8], asked: Asked, c: Changed) {
    let x = routed_at(a, asked.first_form, c.first);
    let y = routed_at(b, asked.second_form, c.second);
    let change = change_of(x, y);
    let l = begun(asked, x, y);
    let v = vehicle_of(x);
    let w = vehicle_of(y);
    let l = tell(page, asked, l, change, b"vehicle", Field::Number, v, w);
    let l = tell_signal(page, asked, l, x, y);
    if !asked.is_table {
        saying::add(page, l);
    }
}

pub fn print_all(page: &mut Page, a: &[u8], b: &[u8], asked: Asked) {
    for c in changed_routes(a, b, asked) {
        print_one(page, a, b, asked, c);
    }
}

fn end_of(a: &[u8], b: &[u8], asked: Asked, c: Changed) -> usize {
    let x = routed_at(a, asked.first_form, c.first);
    let y = routed_at(b, asked.second_form, c.second);
    say_head(x, y).at
}

// The column behind the longest destination.
pub fn column(a: &[u8], b: &[u8], asked: Asked) -> usize {
    let mut column = 0;
    for c in changed_routes(a, b, asked) {
        column = column.max(end_of(a, b, asked, c));
    }
    column
}
