// The signals that were added, removed or changed.
ghost use Rattle.std.specs.Prelude.{◌≤◌};
ghost use Rattle.saying.specs.Lines.{InRoom};

use crate::changes::{changed_signals, codes_gained};
use crate::telling::{
    Asked, Change, Field, change_of, form_of_table, print_row, say_change, say_marked, tell,
    with_room,
};
use gateway::{Changed, FORM_2, Range, Signal};
use saying::{Line, Page, empty, put, say, say_number, say_tab};

// A signal as one list has it.
#[derive(Clone, Copy, Debug, PartialEq, Eq)]
pub struct Side {
    pub signal: Signal,
    // of its check, 0 for none
    pub place: usize,
    // 0 for none
    pub serial: usize,
}

// A list's signal k, if it has it.
pub fn side_at(list: &[u8], form: u8, k: usize) -> Option<Side> {
    let e = gateway::signal_entry(list, form, k).ok()?;
    Some(Side {
        signal: e.signal,
        place: e.place,
        serial: words::serial_at(list, form, k),
    })
}

// The serial number that a list in form 2 has for the signal.
fn serial_in(side: Option<Side>, form: u8) -> Option<usize> {
    side.filter(|_| form == FORM_2).map(|s| s.serial)
}

fn serial_of(side: Option<Side>) -> usize {
    side.map_or(0, |s| s.serial)
}

// The first list's place, where it has the signal.
fn say_placed(line: Line, asked: Asked, x: Option<Side>, y: Option<Side>) -> Line
    ensures { InRoom line.at result.at }
{
    let Some(side) = x.or(y) else {
        return line;
    };
    let s = side.signal;
    words::say_both_beside(
        words::say_place(line, s.kind, s.start, s.width),
        serial_in(x, asked.first_form),
        serial_in(y, asked.second_form),
    )
}

fn say_head(asked: Asked, breaks: usize, x: Option<Side>, y: Option<Side>) -> Line
    ensures { result.at ≤ 240 }
{
    let change = change_of(x, y);
    say_placed(say_marked(breaks, change), asked, x, y)
}

// The columns that are alike in all rows of a signal.
fn say_columns(asked: Asked, breaks: usize, x: Option<Side>, y: Option<Side>) -> Line
    ensures { result.at ≤ 240 }
{
    let l = say_change(say(empty(), b"signal\t"), change_of(x, y));
    let Some(side) = x.or(y) else {
        return l;
    };
    let s = side.signal;
    let l = say_tab(words::say_telegram(put(l, b'\t'), s.kind), s.start as u64);
    let form = form_of_table(asked);
    let l = words::say_serial_tab(l, form, serial_of(x));
    let l = words::say_serial_tab(l, form, serial_of(y));
    say_tab(l, breaks as u64)
}

// What all that is told of a signal begins with.
fn begun(asked: Asked, breaks: usize, x: Option<Side>, y: Option<Side>) -> Line
    ensures { result.at ≤ 240 }
{
    if asked.is_table {
        return say_columns(asked, breaks, x, y);
    }
    saying::pad(say_head(asked, breaks, x, y), asked.column)
}

// The numbers that are compared, in the paper's order: width, place of the check, since-version, time limit, replacement.
fn fields_of(side: Option<Side>) -> [u64; 5] {
    let Some(side) = side else {
        return [0; 5];
    };
    let s = side.signal;
    [
        s.width as u64,
        side.place as u64,
        s.since as u64,
        s.limit,
        s.replacement,
    ]
}

fn tell_fields(page: &mut Page, asked: Asked, line: Line, a: Option<Side>, b: Option<Side>) -> Line
    ensures { InRoom line.at result.at }
{
    let x = fields_of(a);
    let y = fields_of(b);
    let n = Field::Number;
    let c = change_of(a, b);
    let l = tell(page, asked, line, c, b"width", n, x[0], y[0]);
    let l = tell(page, asked, l, c, b"check", Field::Check, x[1], y[1]);
    let l = tell(page, asked, l, c, b"since", n, x[2], y[2]);
    let l = tell(page, asked, l, c, b"limit", n, x[3], y[3]);
    tell(page, asked, l, c, b"replacement", n, x[4], y[4])
}

fn say_range(line: Line, r: Range) -> Line
    ensures { InRoom line.at result.at }
{
    let l = say_number(line, r.low as u64);
    if r.low == r.high {
        return l;
    }
    say_number(put(l, b'-'), r.high as u64)
}

// A range of codes gained or lost; the first of them behind their name.
fn tell_range(
    page: &mut Page,
    asked: Asked,
    line: Line,
    name: &[u8],
    is_first: bool,
    r: Range,
) -> Line
    ensures { InRoom line.at result.at }
{
    if asked.is_table {
        print_row(
            page,
            asked,
            line,
            Change::Changed,
            name,
            Field::Number,
            r.low as u64,
            r.high as u64,
        );
        return line;
    }
    let l = with_room(page, line);
    if is_first {
        return say_range(put(say(say(l, b"  codes "), name), b' '), r);
    }
    say_range(put(l, b' '), r)
}

// The codes that the list b knows of the signal at a key and a does not.
fn tell_gained(
    page: &mut Page,
    asked: Asked,
    line: Line,
    name: &[u8],
    a: &[u8],
    form: u8,
    b: &[u8],
    other: u8,
    key: usize,
) -> Line
    ensures { InRoom line.at result.at }
{
    let mut l = line;
    let mut is_first = true;
    for r in codes_gained(a, form, b, other, key) {
        l = tell_range(page, asked, l, name, is_first, r);
        is_first = false;
    }
    l
}

// What is lost is gained the other way round.
fn tell_codes(page: &mut Page, asked: Asked, line: Line, a: &[u8], b: &[u8], key: usize) -> Line
    ensures { InRoom line.at result.at }
{
    let form = asked.first_form;
    let other = asked.second_form;
    let l = tell_gained(page, asked, line, b"gained", a, form, b, other, key);
    tell_gained(page, asked, l, b"lost", b, other, a, form, key)
}

fn say_rule(line: Line, breaks: usize, version: usize) -> Line
    ensures { InRoom line.at result.at }
{
    match breaks {
        1 => say(line, b"width"),
        2 => say(line, b"check place"),
        3 => say(line, b"since-version"),
        4 => say(line, b"codes lost"),
        5 => say(line, b"removed"),
        _ => say_number(say(line, b"since not above version "), version as u64),
    }
}

// The end of the line; in the table the number of the rule is a column.
fn close(page: &mut Page, asked: Asked, line: Line, breaks: usize) {
    if asked.is_table {
        return;
    }
    if breaks == 0 {
        saying::add(page, line);
        return;
    }
    let l = say(with_room(page, line), b"  breaks extending: ");
    saying::add(page, say_rule(l, breaks, asked.version));
}

fn first_side(a: &[u8], asked: Asked, c: Changed) -> Option<Side> {
    side_at(a, asked.first_form, c.first)
}

fn second_side(b: &[u8], asked: Asked, c: Changed) -> Option<Side> {
    side_at(b, asked.second_form, c.second)
}

fn print_one(page: &mut Page, a: &[u8], b: &[u8], asked: Asked, c: Changed) {
    let x = first_side(a, asked, c);
    let y = second_side(b, asked, c);
    let l = begun(asked, c.breaks, x, y);
    let l = tell_fields(page, asked, l, x, y);
    let l = tell_codes(page, asked, l, a, b, c.key);
    close(page, asked, l, c.breaks);
}

pub fn print_all(page: &mut Page, a: &[u8], b: &[u8], asked: Asked) {
    for c in changed_signals(a, b, asked) {
        print_one(page, a, b, asked, c);
    }
}

fn end_of(a: &[u8], b: &[u8], asked: Asked, c: Changed) -> usize {
    let x = first_side(a, asked, c);
    let y = second_side(b, asked, c);
    say_head(asked, c.breaks, x, y).at
}

// The column behind the longest place.
pub fn column(a: &[u8], b: &[u8], asked: Asked) -> usize {
    let mut column = 0;
    for c in changed_signals(a, b, asked) {
        column = column.max(end_of(a, b, asked, c));
    }
    column
}
