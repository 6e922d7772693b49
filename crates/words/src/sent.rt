// A telegram that is sent: which signals it carries, what it may replace as a file, and its writing.
use crate::replaced::{Written, may_replace};
use files::{Host, Rules};
use gateway::Signal;

// The longest telegram that is written: 8.8A, with eight texts of 127 characters. An R-telegram has fewer octets.
pub const REMEDIES: usize = 2110;

// Whether a telegram of the type carries the signal: its own, and those that are common.
pub fn is_carried(s: Signal, kind: usize) -> bool {
    s.kind == 0 || s.kind == kind
}

// Whether the file is not there yet, or holds a telegram of the same kind: a store or a list that is given for it by mistake is not lost.
fn is_free(rt: &impl Host, i: usize, name: &[u8], path: &[u8], written: Written) -> bool {
    if !files::is_there(rt, path) {
        return true;
    }
    let mut old = [0u8; REMEDIES + 1];
    let Ok(n) = files::read_at(rt, i, name, path, &mut old) else {
        return false;
    };
    may_replace(rt, i, name, &old[..n], written)
}

fn write_at(
    rt: &impl Host,
    i: usize,
    name: &[u8],
    path: &[u8],
    rules: Rules,
    written: Written,
    out: &[u8],
) -> bool {
    let Some(file) = files::begin(rt, i, name, path, rules) else {
        return false;
    };
    if !is_free(rt, i, name, path, written) {
        files::drop_new(rt, path, file);
        return false;
    }
    files::commit(rt, i, name, path, file, out)
}

fn write(
    rt: &impl Host,
    i: usize,
    name: &[u8],
    first: Option<usize>,
    second: Option<usize>,
    written: Written,
    out: &[u8],
) -> bool {
    let rules = Rules {
        is_old: true,
        is_new: true,
        first,
        second,
    };
    let mut path = io::buffer();
    let n = files::target_of(rt, i, &mut path);
    write_at(rt, i, name, &path[..n], rules, written, out)
}

// 0 is no argument.
fn argument(i: usize) -> Option<usize> {
    (i != 0).then_some(i)
}

// Writes a telegram to OUT, which is argument i; it takes that name once all of it is written. It may be no file of the arguments `first` and `second`.
pub fn write_telegram(rt: &impl Host, i: usize, first: usize, second: usize, out: &[u8]) -> bool {
    write(
        rt,
        i,
        b"OUT",
        argument(first),
        argument(second),
        Written::Telegram,
        out,
    )
}

// The same of one with remedy texts, to TELEGRAM, which may not be the file of the argument `first`.
pub fn write_remedies(rt: &impl Host, i: usize, first: usize, out: &[u8]) -> bool {
    write(
        rt,
        i,
        b"TELEGRAM",
        argument(first),
        None,
        Written::Remedies,
        out,
    )
}
