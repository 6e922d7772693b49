// A reading in its unit, in exact decimals: each scale is a whole number of 4096ths to a step.
ghost use Rattle.std.specs.Prelude.{◌<◌};
ghost use Rattle.saying.specs.Lines.{InRoom};

use crate::kinds::kind_of;
use gateway::{Kind, Shown, Signal};
use saying::{Line, put, say, say_number};

// What stands for a signal that is not shown in a unit.
pub fn not_scaled() -> Shown {
    Shown::Code(0)
}

// Signal k of a list, which is s there, as it is read and shown in its unit, a replacement too. Inner: for the programs alone.
pub fn shown_at(
    list: &[u8],
    form: u8,
    store: &[u8],
    clock: u32,
    vehicle: usize,
    k: usize,
    s: Signal,
) -> Shown {
    let kind = kind_of(s);
    if kind == Kind::Code {
        return not_scaled();
    }
    match gateway::show(list, form, store, clock, vehicle, k, kind) {
        Ok(r) => r.shown,
        Err(_) => not_scaled(),
    }
}

fn is_scaled(shown: Shown) -> bool {
    !matches!(shown, Shown::Code(_))
}

// How many 4096ths: the product is exact, and whole.
fn parts_of(x: f32) -> u64 {
    let n = x * 4096.0;
    if n > -1.0 {
        if n < 18446744073709551616.0 {
            return std::num::truncating_f32_to_u64(n);
        }
    }
    0
}

// The next decimal of what is left, in 4096ths; none where nothing is.
fn say_decimal(line: Line, left: u64) -> Line
    requires { left < 4096 }
    ensures { InRoom line.at result.at }
{
    if left == 0 {
        return line;
    }
    say_number(line, left * 10 / 4096)
}

// Twelve are enough, since 4096 is 2^12.
fn say_decimals(line: Line, parts: u64) -> Line
    ensures { InRoom line.at result.at }
{
    let mut l = line;
    let mut left = parts % 4096;
    for _ in 0..12 {
        l = say_decimal(l, left);
        left = left * 10 % 4096;
    }
    l
}

fn say_parts(line: Line, parts: u64) -> Line
    ensures { InRoom line.at result.at }
{
    let l = say_number(line, parts / 4096);
    if parts % 4096 == 0 {
        return l;
    }
    say_decimals(put(l, b'.'), parts)
}

fn say_float(line: Line, x: f32) -> Line
    ensures { InRoom line.at result.at }
{
    if x < 0.0 {
        return say_parts(put(line, b'-'), parts_of(-x));
    }
    say_parts(line, parts_of(x))
}

// The value alone, and the unit alone; a dash for what has none.
fn say_value(line: Line, shown: Shown) -> Line
    ensures { InRoom line.at result.at }
{
    match shown {
        Shown::Code(_) => put(line, b'-'),
        Shown::Speed(x) | Shown::Percentage(x) | Shown::Current(x) => say_float(line, x),
    }
}

fn say_unit(line: Line, shown: Shown) -> Line
    ensures { InRoom line.at result.at }
{
    match shown {
        Shown::Code(_) => put(line, b'-'),
        Shown::Speed(_) => say(line, b"km/h"),
        Shown::Percentage(_) => put(line, b'%'),
        Shown::Current(_) => put(line, b'A'),
    }
}

// As `160 km/h`.
fn say_scaled(line: Line, shown: Shown) -> Line
    ensures { InRoom line.at result.at }
{
    let l = say_value(line, shown);
    if is_scaled(shown) {
        return say_unit(put(l, b' '), shown);
    }
    l
}

// Behind a line, in parentheses; nothing where there is no unit.
pub fn say_shown(line: Line, shown: Shown) -> Line
    ensures { InRoom line.at result.at }
{
    if is_scaled(shown) {
        return put(say_scaled(say(line, b" ("), shown), b')');
    }
    line
}

// The same of two lists' readings of a signal, where either has a unit.
pub fn say_both_shown(line: Line, a: Shown, b: Shown) -> Line
    ensures { InRoom line.at result.at }
{
    if is_scaled(a) || is_scaled(b) {
        let l = say_scaled(say(line, b" ("), a);
        return put(say_scaled(say(l, b" | "), b), b')');
    }
    line
}

fn say_value_tab(line: Line, shown: Shown) -> Line
    ensures { InRoom line.at result.at }
{
    say_value(put(line, b'\t'), shown)
}

fn say_unit_tab(line: Line, shown: Shown) -> Line
    ensures { InRoom line.at result.at }
{
    say_unit(put(line, b'\t'), shown)
}

// Value and unit as the next columns of a table.
pub fn say_shown_tabs(line: Line, shown: Shown) -> Line
    ensures { InRoom line.at result.at }
{
    say_unit_tab(say_value_tab(line, shown), shown)
}

// Both values, and the unit, which is one.
pub fn say_both_shown_tabs(line: Line, a: Shown, b: Shown) -> Line
    ensures { InRoom line.at result.at }
{
    let l = say_value_tab(say_value_tab(line, a), b);
    say_unit_tab(l, if is_scaled(a) { a } else { b })
}
