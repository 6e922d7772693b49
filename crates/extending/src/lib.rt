// Whether a list B extends a list A. Both are in order, so one pass goes along both.
#![tactic(auto)]

ghost use Rattle.std.specs.Prelude.{◌≡◌, ◌<◌, ◌≤◌};
ghost use Rattle.paper.specs.Extends.{codes_kept, keeps, extends as extendsList, extends_lists};
ghost use Rattle.entries.specs.Entries.{signal_of};
ghost use Rattle.lists.specs.Listed.{list_as};
ghost use Rattle.known.specs.Known.{Entries};
ghost use Rattle.extending.specs.Extending.{extends_answer, Newer, range_kept, ranges_kept, agreed};

use entries::Signal;
use known::Span;
use lists::AcceptedList;
use refusals::ListRefused;

// The first signal from j on that is not below the key, or not newer than the version: those passed are only in B, and may be.
fn past_newer(list: &AcceptedList, j: usize, key: usize, version: usize) -> usize
    requires { j ≤ list.now.counts.signals }
    ensures { Newer (list_as list.now) j key version result }
{
    for k in j..list.counts.signals {
        let t = list.signal(k);
        if !((finding::signal_key(t) < key) & (version < t.since)) {
            return k;
        }
    }
    list.counts.signals
}

// Whether signal k knows every code from low to high by its entries. Its ranges never touch, so one of them has to hold all.
fn range_kept(list: &AcceptedList, k: usize, own: Span, low: usize, high: usize) -> bool
    requires entries { (k < list.now.counts.signals) × (Entries (list_as list.now) k own) }
    requires ordered { (low < 65536) × (low ≤ high) }
    ensures { result ≡ range_kept (list_as list.now) k low high }
{
    let e = known::first_code(list, own.from, own.to, k * 65536 + low);
    if own.to <= e {
        return false;
    }
    let c = list.code(e);
    (c.low <= low) & (high <= c.high)
}

// Whether B's signal j knows by its entries what A's signal i does by its own.
fn ranges_kept(a: &AcceptedList, b: &AcceptedList, i: usize, own: Span, j: usize, its: Span) -> bool
    requires first { Entries (list_as a.now) i own }
    requires second { (j < b.now.counts.signals) × (Entries (list_as b.now) j its) }
    ensures { result ≡ ranges_kept (list_as a.now) (list_as b.now) i j }
{
    for e in own.from..own.to {
        let c = a.code(e);
        if !range_kept(b, j, its, c.low, c.high) {
            return false;
        }
    }
    true
}

// Whether each code of A's signal i known under A is known under B as one of its signal j. A signal with no entry knows every code.
fn codes_kept(a: &AcceptedList, b: &AcceptedList, i: usize, own: Span, j: usize, its: Span) -> bool
    requires first { (i < a.now.counts.signals) × (Entries (list_as a.now) i own) }
    requires second { (j < b.now.counts.signals) × (Entries (list_as b.now) j its) }
    ensures { result ≡ codes_kept (list_as a.now) (list_as b.now) i j }
{
    if its.from == its.to {
        return true;
    }
    if own.from < own.to {
        return ranges_kept(a, b, i, own, j, its);
    }
    range_kept(b, j, its, 0, octets::most(a.width(i)) as usize)
}

// Equal type, start, width, check place and since-version; p and q are the places. The same signal goes by type and start, never by its number.
fn agrees(s: Signal, p: usize, t: Signal, q: usize) -> bool
    ensures { result ≡ agreed (signal_of s) p (signal_of t) q }
{
    (s.kind == t.kind)
        & (s.start == t.start)
        & (s.width == t.width)
        & (p == q)
        & (s.since == t.since)
}

// Whether A's signal i is B's signal j in all that must not change.
fn keeps_at(a: &AcceptedList, b: &AcceptedList, i: usize, own: Span, j: usize, its: Span) -> bool
    requires first { (i < a.now.counts.signals) × (Entries (list_as a.now) i own) }
    requires second { (j < b.now.counts.signals) × (Entries (list_as b.now) j its) }
    ensures { result ≡ keeps (list_as a.now) (list_as b.now) i j }
{
    let s = a.signal(i);
    let t = b.signal(j);
    if !agrees(s, a.place(s), t, b.place(t)) {
        return false;
    }
    codes_kept(a, b, i, own, j, its)
}

// Two accepted lists: each signal of A is met in B past those that are only in B; e and g are where the code entries of the next signals start.
fn compared(a: &AcceptedList, b: &AcceptedList) -> bool
    ensures { result ≡ extendsList (list_as a.now) (list_as b.now) }
{
    let mut j = 0;
    let mut e = 0;
    let mut g = 0;
    for i in 0..a.counts.signals {
        j = past_newer(b, j, finding::signal_key(a.signal(i)), a.counts.version);
        if b.counts.signals <= j {
            return false;
        }
        let own = known::entries_from(a, e, i);
        let its = known::entries_from(b, g, j);
        if !keeps_at(a, b, i, own, j, its) {
            return false;
        }
        e = own.to;
        g = its.to;
        j += 1;
    }
    past_newer(b, j, finding::PAST_KEYS, a.counts.version) == b.counts.signals
}

// Whether the list b extends the list a. Refused: 1 to 4, of a before b.
pub fn extends(a: &[u8], form: u8, b: &[u8], other: u8) -> Result<bool, ListRefused>
    ensures { extends_answer result ≡ extends_lists form a.now other b.now }
{
    let a = AcceptedList::judged(a, form).map_err(ListRefused::First)?;
    let b = AcceptedList::judged(b, other).map_err(ListRefused::Second)?;
    Ok(compared(&a, &b))
}
