// Where values end, so that they stand in one column.
ghost use Rattle.std.specs.Prelude.{◌≤◌};

use crate::serial::{say_signal, serial_at};
use saying::{Line, empty, pad};

// The digits of the greatest value of a field.
fn digits(width: usize) -> usize
    ensures { result ≤ 20 }
{
    if 64 < width { 20 } else { width * 3 / 10 + 1 }
}

// The column at which a value of so many bits ends behind the line and a space.
pub fn end_of_value(line: Line, width: usize) -> usize {
    line.at.wrapping_add(1 + digits(width))
}

fn end_of(list: &[u8], form: u8, k: usize, from: usize, is_placed: bool) -> usize {
    let Ok(e) = gateway::signal_entry(list, form, k) else {
        return 0;
    };
    let s = e.signal;
    let l = pad(empty(), from);
    if is_placed {
        return end_of_value(say_signal(l, form, s, serial_at(list, form, k)), s.width);
    }
    end_of_value(l, s.width)
}

// The column at which a list's values end: `least`, or as far right as its longest needs. A value stands behind the column `from`, the
// place of its signal with its serial number, where that is said, and a space.
pub fn value_column(
    list: &[u8],
    form: u8,
    signals: usize,
    from: usize,
    is_placed: bool,
    least: usize,
) -> usize {
    let mut column = least;
    for k in 0..signals {
        column = column.max(end_of(list, form, k, from, is_placed));
    }
    column
}
