// The lines of a values file: `value PLACE VALUE`, `mark PLACE MARK`, with a number for the place too, and comments behind #.
ghost use Rattle.std.specs.Prelude.{◌≤◌};
ghost use Rattle.saying.specs.Lines.{InRoom};

use crate::place::{Field, field_at, type_of};
use saying::{Line, parted, word, word_count};
use std::rt::Env;

// What can be wrong with a line.
#[derive(Clone, Copy, Debug, PartialEq, Eq)]
enum Fault {
    Words,
    Signal,
    Check,
    Value,
    Mark,
    Place,
    CheckPlace,
    Unnamed,
}

fn say_line(rt: &impl Env, what: &[u8], line: u64) -> Line
    ensures { result.at ≤ 240 }
{
    let l = saying::say_argument(rt, saying::say(saying::empty(), what), 3, b"");
    saying::say(saying::say_number(saying::say(l, b" line "), line), b": ")
}

fn say_fault(line: Line, fault: Fault) -> Line
    ensures { InRoom line.at result.at }
{
    match fault {
        Fault::Words => saying::say(line, b"neither `value PLACE VALUE` nor `mark PLACE MARK`"),
        Fault::Signal => saying::say(line, b"no such signal"),
        Fault::Check => saying::say(line, b"no such check"),
        Fault::Value => saying::say(line, b"value not a whole number below 2^64"),
        Fault::Mark => saying::say(line, b"mark not error, ok, forced, undefined or 0 to 3"),
        Fault::Place => saying::say(
            line,
            b"no place, as `R1 octet 54 bits 0-3` or `R1 start 424`",
        ),
        Fault::CheckPlace => saying::say(line, b"no place, as `octet 41 bits 2-3` or `start 322`"),
        Fault::Unnamed => saying::say(line, b"no check there that a signal names"),
    }
}

fn print_fault(rt: &impl Env, line: u64, fault: Fault) {
    saying::print(say_fault(say_line(rt, b"error: VALUES ", line), fault));
}

// A number above 3 is refused by the composing, where the mark is written.
fn mark_of(text: &[u8]) -> Option<u8> {
    match text {
        b"error" => Some(0),
        b"ok" => Some(1),
        b"forced" => Some(2),
        b"undefined" => Some(3),
        _ => Some(saying::parse(text, 255)? as u8),
    }
}

// The number of a signal or a check.
fn number_of(text: &[u8]) -> Option<usize> {
    Some(saying::parse(text, u32::MAX as u64)? as usize)
}

// The signal k is there, and as wide as the line says, if it does.
fn is_wide(list: &[u8], form: u8, k: usize, width: Option<usize>) -> bool {
    gateway::signal_entry(list, form, k).is_ok_and(|e| width.is_none_or(|width| width
        == e.signal.width))
}

// The field at which words k to n - 2 point.
fn place_of(line: &[u8], k: usize, n: usize) -> Option<Field>
    requires { k ≤ 2 }
{
    if n < 4 {
        return None;
    }
    field_at(line, k, n - 1 - k)
}

// The signal at a place.
fn signal_at(list: &[u8], form: u8, kind: usize, f: Field) -> Option<usize> {
    let k = gateway::find_signal(list, form, kind, f.start).ok()?;
    is_wide(list, form, k, f.width).then_some(k)
}

// The signal of a line of n words: at a place, or by its number.
fn signal_of(list: &[u8], form: u8, line: &[u8], n: usize) -> Option<usize> {
    if n == 3 {
        return number_of(word(line, 1));
    }
    signal_at(list, form, type_of(word(line, 1))?, place_of(line, 2, n)?)
}

// Whether it has the form of either.
fn names_signal(line: &[u8], n: usize) -> bool {
    n == 3 || type_of(word(line, 1)).is_some() && place_of(line, 2, n).is_some()
}

// The check of signal k, if it has one, and at that place.
fn check_named(list: &[u8], form: u8, k: usize, place: usize) -> Option<usize> {
    let e = gateway::signal_entry(list, form, k).ok()?;
    (e.place == place && e.signal.check != 0).then_some(e.signal.check)
}

// The number of the check at a place, from 1, if one of the signals names it.
fn check_at(list: &[u8], form: u8, signals: usize, place: usize) -> Option<usize> {
    (0..signals).find_map(|k| check_named(list, form, k, place))
}

// The check of a line of n words: at a place, or by its number; 0 for one that no signal names.
fn check_of(list: &[u8], form: u8, line: &[u8], n: usize, signals: usize) -> Option<usize> {
    if n == 3 {
        return number_of(word(line, 1));
    }
    let f = place_of(line, 1, n)?;
    Some(check_at(list, form, signals, f.start).unwrap_or(0))
}

// Whether it has the form of either: a check is two bits wide.
fn names_check(line: &[u8], n: usize) -> bool {
    n == 3 || place_of(line, 1, n).is_some_and(|f| f.width.is_none_or(|width| width == 2))
}

fn read_value(
    list: &[u8],
    form: u8,
    line: &[u8],
    n: usize,
    values: &mut [u64],
) -> Result<(), Fault> {
    if !names_signal(line, n) {
        return Err(Fault::Place);
    }
    let k = signal_of(list, form, line, n).ok_or(Fault::Signal)?;
    let v = saying::parse(last(line, n), u64::MAX).ok_or(Fault::Value)?;
    if values.len() <= k {
        return Err(Fault::Signal);
    }
    values[k] = v;
    Ok(())
}

// Checks count from 1, as a signal names them.
fn read_mark(
    list: &[u8],
    form: u8,
    line: &[u8],
    n: usize,
    signals: usize,
    marks: &mut [u8],
) -> Result<(), Fault> {
    if !names_check(line, n) {
        return Err(Fault::CheckPlace);
    }
    let i = check_of(list, form, line, n, signals).ok_or(Fault::Check)?;
    let m = mark_of(last(line, n)).ok_or(Fault::Mark)?;
    if i == 0 && n != 3 {
        return Err(Fault::Unnamed);
    }
    if i == 0 || marks.len() < i {
        return Err(Fault::Check);
    }
    marks[i - 1] = m;
    Ok(())
}

// The last of n words.
fn last(line: &[u8], n: usize) -> &[u8] {
    word(line, n.saturating_sub(1))
}

fn read_words(
    list: &[u8],
    form: u8,
    line: &[u8],
    values: &mut [u64],
    marks: &mut [u8],
) -> Result<(), Fault> {
    let n = word_count(line);
    if n == 0 {
        return Ok(());
    }
    if n < 3 {
        return Err(Fault::Words);
    }
    match word(line, 0) {
        b"value" => read_value(list, form, line, n, values),
        b"mark" => read_mark(list, form, line, n, values.len(), marks),
        _ => Err(Fault::Words),
    }
}

// The line as far as no comment begins.
fn uncommented(line: &[u8]) -> &[u8] {
    parted(line, b'#').0
}

// Whether every line was read; where one is at fault, an error line names it.
pub fn read_lines(
    rt: &impl Env,
    list: &[u8],
    form: u8,
    text: &[u8],
    values: &mut [u64],
    marks: &mut [u8],
) -> bool {
    let mut number: u64 = 1;
    for line in text.split(|&x| x == b'\n') {
        if let Err(fault) = read_words(list, form, uncommented(line), values, marks) {
            print_fault(rt, number, fault);
            return false;
        }
        number = number.wrapping_add(1);
    }
    true
}

// The signal k, which a telegram of the type does not carry, is named by a line of its own.
fn note_signal(rt: &impl Env, list: &[u8], form: u8, k: usize, kind: usize, number: u64) {
    let Ok(e) = gateway::signal_entry(list, form, k) else {
        return;
    };
    let s = e.signal;
    if words::is_carried(s, kind) {
        return;
    }
    let serial = words::serial_at(list, form, k);
    let l = words::say_signal(say_line(rt, b"note: VALUES ", number), form, s, serial);
    saying::print(words::say_telegram(saying::say(l, b" is not carried by "), kind));
}

fn note_words(rt: &impl Env, list: &[u8], form: u8, line: &[u8], kind: usize, number: u64) {
    if !check::same(word(line, 0), b"value") {
        return;
    }
    if let Some(k) = signal_of(list, form, line, word_count(line)) {
        note_signal(rt, list, form, k, kind, number);
    }
}

// A line for each value that a telegram of the type does not carry.
pub fn print_notes(rt: &impl Env, list: &[u8], form: u8, text: &[u8], kind: usize) {
    let mut number: u64 = 1;
    for line in text.split(|&x| x == b'\n') {
        note_words(rt, list, form, uncommented(line), kind, number);
        number = number.wrapping_add(1);
    }
}
