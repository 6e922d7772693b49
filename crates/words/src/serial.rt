// The serial numbers of Appendix A that a list in form 2 has beside its signals, in words; packed and printed as `paper/specs/Serials.antt` says.
ghost use Rattle.saying.specs.Lines.{InRoom};

use crate::said::say_place;
use gateway::{FORM_1, FORM_2, Signal};
use saying::{Line, put, say, say_number};

// A list's form, as the library takes it.
pub fn form_of(is_form_2: bool) -> u8 {
    if is_form_2 { FORM_2 } else { FORM_1 }
}

// The serial number of a signal; 0 where it has none, as in form 1.
pub fn serial_at(list: &[u8], form: u8, signal: usize) -> usize {
    if form != FORM_2 {
        return 0;
    }
    gateway::serial_of(list, form, signal).unwrap_or(0)
}

// Behind the number.
fn say_letter(line: Line, letters: usize) -> Line
    ensures { InRoom line.at result.at }
{
    match letters {
        1 | 3 | 4 => put(line, b'R'),
        2 => put(line, b'M'),
        5 => put(line, b'E'),
        6 => put(line, b'A'),
        _ => line,
    }
}

fn say_variant(line: Line, letters: usize, variant: usize) -> Line
    ensures { InRoom line.at result.at }
{
    let l = if variant == 0 {
        line
    } else {
        say_number(put(line, b'/'), variant as u64)
    };
    match letters {
        3 => put(l, b'd'),
        4 => put(l, b'e'),
        _ => l,
    }
}

fn put_hex(line: Line, n: usize) -> Line
    ensures { InRoom line.at result.at }
{
    let digits = b"0123456789ABCDEF";
    put(line, digits[n % 16])
}

fn say_hex(line: Line, n: usize) -> Line
    ensures { InRoom line.at result.at }
{
    let l = put_hex(put_hex(say(line, b"0x"), n / 4096), n / 256);
    put_hex(put_hex(l, n / 16), n)
}

// As Appendix A prints it, `4.2R/1e`; 16 bits that are packed for no number, in hexadecimal digits.
pub fn say_serial(line: Line, serial: usize) -> Line
    ensures { InRoom line.at result.at }
{
    if serial == 0 {
        return say(line, b"no serial number");
    }
    let number = serial / 64 % 64;
    let letters = serial / 8 % 8;
    if number == 0 || letters == 7 {
        return say_hex(line, serial);
    }
    let l = put(say_number(line, (serial / 4096) as u64), b'.');
    let l = say_letter(say_number(l, number as u64), letters);
    say_variant(l, letters, serial % 8)
}

// Behind the place of a signal: in parentheses in form 2, and nothing in form 1.
pub fn say_beside(line: Line, form: u8, serial: usize) -> Line
    ensures { InRoom line.at result.at }
{
    if form != FORM_2 {
        return line;
    }
    put(say_serial(say(line, b" ("), serial), b')')
}

// The place of a signal, with its serial number in form 2.
pub fn say_signal(line: Line, form: u8, s: Signal, serial: usize) -> Line
    ensures { InRoom line.at result.at }
{
    say_beside(say_place(line, s.kind, s.start, s.width), form, serial)
}

// The same of a signal that two lists may have, by the serial numbers of those in form 2; one that both have, once.
pub fn say_both_beside(line: Line, first: Option<usize>, second: Option<usize>) -> Line
    ensures { InRoom line.at result.at }
{
    match (first, second) {
        (Some(x), Some(y)) if x != y => {
            let l = say_serial(say(line, b" ("), x);
            put(say_serial(say(l, b", "), y), b')')
        }
        (Some(x), _) | (None, Some(x)) => say_beside(line, FORM_2, x),
        (None, None) => line,
    }
}

// The serial number as the next column of a table in form 2, a dash where there is none.
pub fn say_serial_tab(line: Line, form: u8, serial: usize) -> Line
    ensures { InRoom line.at result.at }
{
    if form != FORM_2 {
        return line;
    }
    let l = put(line, b'\t');
    if serial == 0 {
        return put(l, b'-');
    }
    say_serial(l, serial)
}

// That column's name.
pub fn say_serial_name(line: Line, form: u8, name: &[u8]) -> Line
    ensures { InRoom line.at result.at }
{
    if form != FORM_2 {
        return line;
    }
    say(put(line, b'\t'), name)
}
