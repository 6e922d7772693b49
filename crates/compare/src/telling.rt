// How a difference is told: a line of the page, with all its fields behind each other, or rows of the table, a field each.
ghost use Rattle.std.specs.Prelude.{◌≤◌};
ghost use Rattle.saying.specs.Lines.{InRoom};

use gateway::FORM_2;
use saying::{Line, Page, STDOUT, empty, put, say, say_number};

// What is compared, and how it is told.
#[derive(Clone, Copy, Debug, PartialEq, Eq)]
pub struct Asked {
    pub first_form: u8,
    pub second_form: u8,
    pub is_table: bool,
    // of the first list
    pub version: usize,
    // where the fields begin
    pub column: usize,
}

#[derive(Clone, Copy, Debug, PartialEq, Eq)]
pub enum Change {
    Added,
    Removed,
    Changed,
}

// What a number is, which says how it is shown.
#[derive(Clone, Copy, Debug, PartialEq, Eq)]
pub enum Field {
    Number,
    Check,
    Telegram,
}

// What became of an entry that one list has, or both.
pub fn change_of<T: Drop>(in_first: Option<T>, in_second: Option<T>) -> Change {
    match (in_first, in_second) {
        (Some(_), Some(_)) => Change::Changed,
        (Some(_), None) => Change::Removed,
        (None, _) => Change::Added,
    }
}

pub fn say_change(line: Line, change: Change) -> Line
    ensures { InRoom line.at result.at }
{
    match change {
        Change::Added => say(line, b"added"),
        Change::Removed => say(line, b"removed"),
        Change::Changed => say(line, b"changed"),
    }
}

// The page's: the mark of what breaks a rule, then the word, in a column.
pub fn say_marked(breaks: usize, change: Change) -> Line
    ensures { result.at ≤ 240 }
{
    let mark = if breaks == 0 { b' ' } else { b'!' };
    let l = say_change(put(put(empty(), mark), b' '), change);
    saying::pad(l, 11)
}

// The form of the columns: with serial numbers as soon as one list has them.
pub fn form_of_table(asked: Asked) -> u8 {
    words::form_of(asked.first_form == FORM_2 || asked.second_form == FORM_2)
}

fn write(line: Line) {
    io::write_all(STDOUT, saying::said(&line));
}

// A line of many ranges is longer than one in memory: what has come of it is written where the next field might not find room.
pub fn with_room(page: &mut Page, line: Line) -> Line
    ensures { InRoom line.at result.at }
{
    if line.at < 160 {
        return line;
    }
    saying::flush(page);
    write(line);
    empty()
}

// Whether a field is told: of an entry that both lists have, only where it differs.
fn is_told(change: Change, x: u64, y: u64) -> bool {
    change != Change::Changed || x != y
}

// On the page, up to its numbers.
pub fn say_name(page: &mut Page, line: Line, name: &[u8]) -> Line
    ensures { InRoom line.at result.at }
{
    put(say(say(with_room(page, line), b"  "), name), b' ')
}

pub fn say_arrow(line: Line) -> Line
    ensures { InRoom line.at result.at }
{
    say(line, b" -> ")
}

// A check by its place, 0 for none.
fn say_check(line: Line, place: u64) -> Line
    ensures { InRoom line.at result.at }
{
    if place == 0 {
        return say(line, b"none");
    }
    words::say_field(line, place as usize, 2)
}

// A check is its first bit's address in the table.
fn say_value(line: Line, asked: Asked, field: Field, x: u64) -> Line
    ensures { InRoom line.at result.at }
{
    match field {
        Field::Number => say_number(line, x),
        Field::Telegram => words::say_telegram(line, x as usize),
        Field::Check if asked.is_table => say_number(line, x),
        Field::Check => say_check(line, x),
    }
}

fn say_values(line: Line, asked: Asked, field: Field, change: Change, x: u64, y: u64) -> Line
    ensures { InRoom line.at result.at }
{
    match change {
        Change::Added => say_value(line, asked, field, y),
        Change::Removed => say_value(line, asked, field, x),
        Change::Changed => {
            let l = say_value(line, asked, field, x);
            say_value(say_arrow(l), asked, field, y)
        }
    }
}

fn say_from(line: Line, asked: Asked, field: Field, change: Change, x: u64) -> Line
    ensures { InRoom line.at result.at }
{
    match change {
        Change::Added => put(line, b'-'),
        _ => say_value(line, asked, field, x),
    }
}

fn say_to(line: Line, asked: Asked, field: Field, change: Change, y: u64) -> Line
    ensures { InRoom line.at result.at }
{
    match change {
        Change::Removed => put(line, b'-'),
        _ => say_value(line, asked, field, y),
    }
}

// A row of the table: `head` are the columns that are alike in all rows of a difference.
pub fn print_row(
    page: &mut Page,
    asked: Asked,
    head: Line,
    change: Change,
    name: &[u8],
    field: Field,
    x: u64,
    y: u64,
) {
    let l = put(say(put(head, b'\t'), name), b'\t');
    let l = put(say_from(l, asked, field, change, x), b'\t');
    saying::add(page, say_to(l, asked, field, change, y));
}

// A field whose numbers in the two lists are x and y: on the page behind the line, in the table as a row.
pub fn tell(
    page: &mut Page,
    asked: Asked,
    line: Line,
    change: Change,
    name: &[u8],
    field: Field,
    x: u64,
    y: u64,
) -> Line
    ensures { InRoom line.at result.at }
{
    if !is_told(change, x, y) {
        return line;
    }
    if asked.is_table {
        print_row(page, asked, line, change, name, field, x, y);
        return line;
    }
    say_values(say_name(page, line, name), asked, field, change, x, y)
}
