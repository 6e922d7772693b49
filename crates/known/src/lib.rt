// Known codes: whether a signal knows a code under the list's code entries. The entries are in order, so those of a signal are found by
// halving, or by going on from those of a signal before. What has a `requires` is inner: its caller in the library shows it.
#![tactic(auto)]

ghost use Rattle.std.specs.Prelude.{◌≡◌, ◌+◌, ◌*◌, ◌<◌};
ghost use Rattle.paper.specs.SignalList.{knows as listKnows};
ghost use Rattle.paper.specs.Search.{Between, Cut};
ghost use Rattle.entries.specs.Entries.{code_of};
ghost use Rattle.lists.specs.Listed.{list_as};
ghost use Rattle.known.specs.Known.{code_key, code_keys, Entries, From, Starts};

use entries::Code;
use lists::AcceptedList;

// The code entries of a signal: from `from` to before `to`.
#[derive(Clone, Copy, Debug, PartialEq, Eq)]
pub struct Span {
    pub from: usize,
    pub to: usize,
}

// What the entries rise by.
fn code_key(c: Code) -> usize
    requires { (c.signal < 65536) × (c.high < 65536) }
    ensures { result ≡ code_key (code_of c) }
{
    c.signal * 65536 + c.high
}

// Inner: the first entry whose key is not below this one. It is none before `from`, and from `to` on none is below.
pub fn first_code(list: &AcceptedList, from: usize, to: usize, key: usize) -> usize
    requires { Between (code_keys (list_as list.now).code) list.now.counts.codes key from to }
    ensures { Cut (code_keys (list_as list.now).code) list.now.counts.codes key result }
{
    let mut low = from;
    let mut high = to;
    // While: halved, not counted.
    while low < high {
        let mid = low + (high - low) / 2;
        if code_key(list.code(mid)) < key {
            low = mid + 1;
        } else {
            high = mid;
        }
    }
    low
}

// Inner: the entries of signal k.
pub fn entries_of(list: &AcceptedList, k: usize) -> Span
    requires { k < list.now.counts.signals }
    ensures { Entries (list_as list.now) k result }
{
    let from = first_code(list, 0, list.counts.codes, k * 65536);
    let to = first_code(list, from, list.counts.codes, (k + 1) * 65536);
    Span { from, to }
}

// Inner: the first entry of signal k or a later one. None before `from` is.
pub fn reach(list: &AcceptedList, from: usize, k: usize) -> usize
    requires { From (list_as list.now) k from }
    ensures { Starts (list_as list.now) k result }
{
    for e in from..list.counts.codes {
        if k <= list.code(e).signal {
            return e;
        }
    }
    list.counts.codes
}

// Inner: the entries of signal k, from those of a signal before on.
pub fn entries_from(list: &AcceptedList, from: usize, k: usize) -> Span
    requires { (k < list.now.counts.signals) × (From (list_as list.now) k from) }
    ensures { Entries (list_as list.now) k result }
{
    let first = reach(list, from, k);
    let to = reach(list, first, k + 1);
    Span { from: first, to }
}

// Of the entries of signal k, the first that does not end below the code: a search for its key, which within a signal rises by its high alone.
fn first_high(list: &AcceptedList, own: Span, k: usize, code: usize) -> usize
    requires { (Entries (list_as list.now) k own) × (code < 65536) }
    ensures { Cut (code_keys (list_as list.now).code) list.now.counts.codes (k * 65536 + code) result }
{
    let mut low = own.from;
    let mut high = own.to;
    // While: halved, not counted.
    while low < high {
        let mid = low + (high - low) / 2;
        if list.code(mid).high < code {
            low = mid + 1;
        } else {
            high = mid;
        }
    }
    low
}

// Inner: whether signal k, with these entries, knows a code. Its ranges never touch, so the first that does not end below the code decides.
pub fn knows(list: &AcceptedList, k: usize, own: Span, code: u64) -> bool
    requires { (k < list.now.counts.signals) × (Entries (list_as list.now) k own) }
    ensures { result ≡ listKnows (list_as list.now) k code }
{
    if own.from == own.to {
        return true;
    }
    if 65535 < code {
        return false;
    }
    let e = first_high(list, own, k, code as usize);
    if own.to <= e {
        return false;
    }
    list.code(e).low as u64 <= code
}
