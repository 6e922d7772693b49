// Signals by number, and by type and start. They are in order, so one is found by halving. What has a `requires` is inner: its caller in
// the library shows it.
#![tactic(auto)]

ghost use Rattle.std.specs.Prelude.{◌≡◌, cond, ◌<◌, eqb};
ghost use Rattle.paper.specs.Search.{Cut};
ghost use Rattle.paper.specs.Pairs.{entry_of, route_entry, signal_found, finding, signal_key, signal_keys, signals_of};
ghost use Rattle.entries.specs.Entries.{signal_of};
ghost use Rattle.lists.specs.Listed.{list_as};
ghost use Rattle.finding.specs.Finding.{Reaches, entry_answer, route_answer, found_answer};

use entries::{Route, Signal};
use lists::AcceptedList;
use refusals::Refusal;

// Above the key of every signal.
pub const PAST_KEYS: usize = 3072;

// A signal, and the place of its check, 0 for none.
#[derive(Clone, Copy, Debug, PartialEq, Eq)]
pub struct Entry {
    pub signal: Signal,
    pub place: usize,
}

// A signal that a search by key reached, with its key; past the last, with PAST_KEYS, so that of two lists the lesser key is the next of both.
#[derive(Clone, Copy, Debug, PartialEq, Eq)]
pub struct Reached {
    pub at: usize,
    pub key: usize,
}

// Inner: what the signals of a list rise by.
pub fn signal_key(s: Signal) -> usize
    requires { (s.kind < 256) × (s.start < 65536) }
    ensures { result ≡ signal_key (signal_of s) }
{
    s.kind * 1024 + s.start
}

// Inner: the first signal whose key is not below `key`, by halving.
pub fn first_signal(list: &AcceptedList, key: usize) -> usize
    ensures { Cut (signals_of (list_as list.now)).key list.now.counts.signals key result }
{
    let mut low = 0;
    let mut high = list.counts.signals;
    // While: each step halves what is left between the two.
    while low < high {
        let mid = low + (high - low) / 2;
        if signal_key(list.signal(mid)) < key {
            low = mid + 1;
        } else {
            high = mid;
        }
    }
    low
}

// Inner: the same with its key.
pub fn signal_from(list: &AcceptedList, key: usize) -> Reached
    ensures { Reaches (signals_of (list_as list.now)) signal_keys key result }
{
    let at = first_signal(list, key);
    if list.counts.signals <= at {
        return Reached { at, key: PAST_KEYS };
    }
    Reached {
        at,
        key: signal_key(list.signal(at)),
    }
}

// Inner: what was reached, if it has the key; else how many there are.
pub fn at_key(r: Reached, key: usize, count: usize) -> usize
    ensures { result ≡ cond (eqb r.key key) r.at count }
{
    if r.key == key { r.at } else { count }
}

// Inner: the signal of a type at a start; the number of signals where there is none. No type is above 2, and no start above 1023.
pub fn find_in(list: &AcceptedList, kind: usize, start: usize) -> usize
    ensures { result ≡ signal_found (list_as list.now) kind start }
{
    if 2 < kind || 1023 < start {
        return list.counts.signals;
    }
    let key = kind * 1024 + start;
    at_key(signal_from(list, key), key, list.counts.signals)
}

// The entry of a signal. Refused: 1 to 4, 11.
pub fn signal_entry(list: &[u8], form: u8, signal: usize) -> Result<Entry, Refusal>
    ensures { entry_answer result ≡ entry_of form list.now signal }
{
    let list = AcceptedList::judged(list, form)?;
    if list.counts.signals <= signal {
        return Err(Refusal::NoSuchSignal);
    }
    let signal = list.signal(signal);
    let place = list.place(signal);
    Ok(Entry { signal, place })
}

// The number of the signal of a type at a start. Refused: 1 to 4, 11.
pub fn find_signal(list: &[u8], form: u8, kind: usize, start: usize) -> Result<usize, Refusal>
    ensures { found_answer result ≡ finding form list.now kind start }
{
    let list = AcceptedList::judged(list, form)?;
    let k = find_in(&list, kind, start);
    if list.counts.signals <= k {
        return Err(Refusal::NoSuchSignal);
    }
    Ok(k)
}

// The entry of a route, if there is one. Refused: 1 to 4.
pub fn route_entry(list: &[u8], form: u8, route: usize) -> Result<Option<Route>, Refusal>
    ensures { route_answer result ≡ route_entry form list.now route }
{
    let list = AcceptedList::judged(list, form)?;
    if list.counts.routes <= route {
        return Ok(None);
    }
    Ok(Some(list.route(route)))
}
