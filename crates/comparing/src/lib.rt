// What differs between two lists, one difference after the other. What has a `requires` is inner: its caller in the library shows it.
#![tactic(auto)]

ghost use Rattle.std.specs.Prelude.{◌≡◌, ◌<◌, ◌≤◌, ℕ, Some};
ghost use Rattle.paper.specs.First.{some};
ghost use Rattle.paper.specs.Pairs.{index, signal_key, signal_keys, signals_of};
ghost use Rattle.paper.specs.Comparing.{gained, codes_compared, routes_of, route_keys, route_differs};
ghost use Rattle.paper.specs.Comparing.{next_signal, next_route, next_gained, signal_changes, route_changes, codes_gained};
ghost use Rattle.entries.specs.Entries.{signal_of};
ghost use Rattle.lists.specs.Listed.{list_as};
ghost use Rattle.known.specs.Known.{Entries};
ghost use Rattle.finding.specs.Finding.{Reaches};
ghost use Rattle.pairing.specs.Pairing.{pair_of, next_of};
ghost use Rattle.comparing.specs.Comparing.{FirstTold, Steady, Next, Fresh, wanted, numbers_differ, kept_as, ComparedAs, added_as, told_of, PairThere};
ghost use Rattle.comparing.specs.Comparing.{signal_told_at, route_told_at, paired_routes, range_from};
ghost use Rattle.comparing.specs.Comparing.{changed_of, next_changed_of, changes_answer, next_range_of, gained_answer};

use entries::Signal;
use finding::Reached;
use known::Span;
use lists::AcceptedList;
use pairing::Pair;
use refusals::ListRefused;

// A key (of signals type * 1024 + start, of routes the destination) with the entry of each list that has it, the number of its entries where a
// list has none; and the rule of extending that the two break, 0 for none.
#[derive(Clone, Copy, Debug, PartialEq, Eq)]
pub struct Changed {
    pub key: usize,
    pub first: usize,
    pub second: usize,
    pub breaks: usize,
}

// Codes, from `low` to `high`.
#[derive(Clone, Copy, Debug, PartialEq, Eq)]
pub struct Range {
    pub low: usize,
    pub high: usize,
}

// Past the destination of every route.
const PAST_ROUTES: usize = 2048;

// Codes of a signal that are all known, or all not, up to before `until`.
#[derive(Clone, Copy, Debug, PartialEq, Eq)]
struct Stretch {
    known: bool,
    until: usize,
}

// The stretch that starts at c. A signal's ranges never touch, so the first that does not end below c decides.
fn stretch_at(list: &AcceptedList, k: usize, own: Span, c: usize, top: usize) -> Stretch
    requires entries { (k < list.now.counts.signals) × (Entries (list_as list.now) k own) }
    requires below { (c < top) × (top ≤ 65536) }
    ensures { Steady (list_as list.now) k c top result }
{
    if own.from == own.to {
        return Stretch {
            known: true,
            until: top,
        };
    }
    let e = known::first_code(list, own.from, own.to, k * 65536 + c);
    if own.to <= e {
        return Stretch {
            known: false,
            until: top,
        };
    }
    let x = list.code(e);
    if c < x.low {
        return Stretch {
            known: false,
            until: x.low.min(top),
        };
    }
    Stretch {
        known: true,
        until: (x.high + 1).min(top),
    }
}

// The first code from `from` on that is known to B's signal j and not to A's signal i, or where `want` is false the first that is not so; `top` if
// there is none below it.
fn next_code(
    a: &AcceptedList,
    i: usize,
    own: Span,
    b: &AcceptedList,
    j: usize,
    its: Span,
    top: usize,
    from: usize,
    want: bool,
) -> usize
    requires first { (i < a.now.counts.signals) × (Entries (list_as a.now) i own) }
    requires second { (j < b.now.counts.signals) × (Entries (list_as b.now) j its) }
    requires below { (from ≤ top) × (top ≤ 65536) }
    ensures { Next (wanted (list_as a.now) (list_as b.now) i j want) top from result }
{
    let mut c = from;
    // While: the step is a stretch of both.
    while c < top {
        let p = stretch_at(a, i, own, c, top);
        let q = stretch_at(b, j, its, c, top);
        if (q.known & !p.known) == want {
            return c;
        }
        c = p.until.min(q.until);
    }
    top
}

// How many codes of two signals are compared.
fn codes_compared(a: &AcceptedList, i: usize, b: &AcceptedList, j: usize) -> usize
    requires { (i < a.now.counts.signals) × (j < b.now.counts.signals) }
    ensures { (result ≡ codes_compared (list_as a.now) (list_as b.now) i j) × (result ≤ 65536) }
{
    let v = a.width(i);
    if v != b.width(j) || 16 < v {
        return 0;
    }
    1 << v
}

// Whether signal j of B knows a code below `top` that signal i of A does not.
fn gains(a: &AcceptedList, i: usize, b: &AcceptedList, j: usize, top: usize) -> bool
    requires { (i < a.now.counts.signals) × (j < b.now.counts.signals) × (top ≤ 65536) }
    ensures { result ≡ some (gained (list_as a.now) (list_as b.now) i j) top }
{
    let own = known::entries_of(a, i);
    let its = known::entries_of(b, j);
    next_code(a, i, own, b, j, its, top, 0, true) < top
}

// Whether two signals, with the places of their checks, differ in a number.
fn fields_differ(s: Signal, p: usize, t: Signal, q: usize) -> bool
    ensures { result ≡ numbers_differ (signal_of s) p (signal_of t) q }
{
    (s.width != t.width)
        | (p != q)
        | (s.since != t.since)
        | (s.limit != t.limit)
        | (s.replacement != t.replacement)
}

// The first rule of extending that they break, where `lost` says that a code is lost.
fn keep_number(s: Signal, p: usize, t: Signal, q: usize, lost: bool) -> usize
    ensures { result ≡ kept_as (signal_of s) p (signal_of t) q lost }
{
    if s.width != t.width {
        return 1;
    }
    if p != q {
        return 2;
    }
    if s.since != t.since {
        return 3;
    }
    if lost { 4 } else { 0 }
}

// What is told of a signal that both lists have.
#[derive(Clone, Copy, Debug, PartialEq, Eq)]
struct Compared {
    differs: bool,
    breaks: usize,
}

fn compare_both(a: &AcceptedList, i: usize, b: &AcceptedList, j: usize) -> Compared
    requires { (i < a.now.counts.signals) × (j < b.now.counts.signals) }
    ensures { ComparedAs (list_as a.now) (list_as b.now) i j result }
{
    let s = a.signal(i);
    let t = b.signal(j);
    let p = a.place(s);
    let q = b.place(t);
    let top = codes_compared(a, i, b, j);
    let gain = gains(a, i, b, j, top);
    let loss = gains(b, j, a, i, top);
    Compared {
        differs: fields_differ(s, p, t, q) | gain | loss,
        breaks: keep_number(s, p, t, q, loss),
    }
}

// The rule of extending that a signal only in B breaks: it has to be newer than A, which is of this version.
fn added_number(version: usize, b: &AcceptedList, j: usize) -> usize
    requires { j < b.now.counts.signals }
    ensures { result ≡ added_as version ((list_as b.now).signal j).since }
{
    if version < b.signal(j).since { 0 } else { 6 }
}

fn told(p: Pair, breaks: usize) -> Changed
    ensures { changed_of result ≡ told_of (pair_of p) breaks }
{
    Changed {
        key: p.key,
        first: p.first,
        second: p.second,
        breaks,
    }
}

// What there is to tell of a type and start that one list has, or both.
fn signal_told(a: &AcceptedList, b: &AcceptedList, p: Pair) -> Option<Changed>
    requires { PairThere (signals_of (list_as a.now)) (signals_of (list_as b.now)) (pair_of p) }
    ensures { next_changed_of result ≡ signal_told_at (list_as a.now) (list_as b.now) p.key }
{
    if a.counts.signals <= p.first {
        return Some(told(p, added_number(a.counts.version, b, p.second)));
    }
    if b.counts.signals <= p.second {
        return Some(told(p, 5));
    }
    let c = compare_both(a, p.first, b, p.second);
    if c.differs {
        return Some(told(p, c.breaks));
    }
    None
}

// The first that there is to tell from a key on: `next` answers the pair at a key or the next above it, `told` what there is to tell of a pair.
fn first_told<N: Fn(usize) -> Option<Pair>, T: Fn(Pair) -> Option<Changed>>(
    from: usize,
    next: N,
    told: T,
) -> Option<Changed>
    requires next { N.IsAlwaysCallable next }
    requires told { (key : ℕ) (p : _) → N.post next key (Some p) → T.pre told p × (key ≤ p.key) × (p.key < signal_keys) }
    ensures { FirstTold (N.post next) (T.post told) from result }
{
    let mut key = from;
    while let Some(p) = next(key) {
        if let Some(c) = told(p) {
            return Some(c);
        }
        key = p.key + 1;
    }
    None
}

// Inner: the next signal at the key `from` or above that was added, removed or changed.
pub fn next_signal(a: &AcceptedList, b: &AcceptedList, from: usize) -> Option<Changed>
    ensures { next_changed_of result ≡ next_signal (list_as a.now) (list_as b.now) from }
{
    first_told(
        from,
        |key| pairing::next_pair(a, b, key),
        |p| signal_told(a, b, p),
    )
}

// The first route whose destination is `from` or above.
fn route_from(list: &AcceptedList, from: usize) -> Reached
    ensures { Reaches (routes_of (list_as list.now)) route_keys from result }
{
    for r in 0..list.counts.routes {
        let start = list.route(r).start;
        if from <= start {
            return Reached { at: r, key: start };
        }
    }
    Reached {
        at: list.counts.routes,
        key: PAST_ROUTES,
    }
}

// The next destination of a route of either list, with the route of each.
fn next_routes(a: &AcceptedList, b: &AcceptedList, from: usize) -> Option<Pair>
    ensures { next_of result ≡ paired_routes (list_as a.now) (list_as b.now) from }
{
    let g = route_from(a, from);
    let h = route_from(b, from);
    let key = g.key.min(h.key);
    if PAST_ROUTES <= key {
        return None;
    }
    let first = finding::at_key(g, key, a.counts.routes);
    let second = finding::at_key(h, key, b.counts.routes);
    Some(Pair { key, first, second })
}

// The key of the signal that a route names.
fn routed_key(list: &AcceptedList, k: usize) -> usize
    requires { k < list.now.counts.signals }
    ensures { result ≡ signal_key ((list_as list.now).signal k) }
{
    finding::signal_key(list.signal(k))
}

fn routes_differ(a: &AcceptedList, i: usize, b: &AcceptedList, j: usize) -> bool
    requires { (i < a.now.counts.routes) × (j < b.now.counts.routes) }
    ensures { result ≡ route_differs (list_as a.now) (list_as b.now) i j }
{
    let r = a.route(i);
    let t = b.route(j);
    let k = routed_key(a, r.signal);
    let l = routed_key(b, t.signal);
    (r.vehicle != t.vehicle) | (k != l)
}

fn route_told(a: &AcceptedList, b: &AcceptedList, p: Pair) -> Option<Changed>
    requires { PairThere (routes_of (list_as a.now)) (routes_of (list_as b.now)) (pair_of p) }
    ensures { next_changed_of result ≡ route_told_at (list_as a.now) (list_as b.now) p.key }
{
    if a.counts.routes <= p.first
        || b.counts.routes <= p.second
        || routes_differ(a, p.first, b, p.second)
    {
        return Some(told(p, 0));
    }
    None
}

// Inner: the same of routes, by destination.
pub fn next_route(a: &AcceptedList, b: &AcceptedList, from: usize) -> Option<Changed>
    ensures { next_changed_of result ≡ next_route (list_as a.now) (list_as b.now) from }
{
    first_told(from, |key| next_routes(a, b, key), |p| route_told(a, b, p))
}

// Where a range of codes gained that began before `from` has ended.
fn fresh_from(
    a: &AcceptedList,
    i: usize,
    own: Span,
    b: &AcceptedList,
    j: usize,
    its: Span,
    top: usize,
    from: usize,
) -> usize
    requires first { (i < a.now.counts.signals) × (Entries (list_as a.now) i own) }
    requires second { (j < b.now.counts.signals) × (Entries (list_as b.now) j its) }
    requires below { (from < top) × (top ≤ 65536) }
    ensures { Fresh (gained (list_as a.now) (list_as b.now) i j) top from result }
{
    if from == 0 {
        return 0;
    }
    next_code(a, i, own, b, j, its, top, from - 1, false)
}

// The first range of codes gained that starts at `from` or above: one that began before is passed over.
fn range_from(a: &AcceptedList, i: usize, b: &AcceptedList, j: usize, from: usize) -> Option<Range>
    requires { (i < a.now.counts.signals) × (j < b.now.counts.signals) }
    ensures { next_range_of result ≡ range_from (gained (list_as a.now) (list_as b.now) i j) (codes_compared (list_as a.now) (list_as b.now) i j) from }
{
    let top = codes_compared(a, i, b, j);
    if top <= from {
        return None;
    }
    let own = known::entries_of(a, i);
    let its = known::entries_of(b, j);
    let at = fresh_from(a, i, own, b, j, its, top, from);
    let low = next_code(a, i, own, b, j, its, top, at, true);
    if top <= low {
        return None;
    }
    let end = next_code(a, i, own, b, j, its, top, low, false);
    Some(Range { low, high: end - 1 })
}

// The signal at a key; the number of signals where there is none.
fn signal_at(list: &AcceptedList, key: usize) -> usize
    ensures { result ≡ index (signals_of (list_as list.now)) key }
{
    finding::at_key(finding::signal_from(list, key), key, list.counts.signals)
}

// Inner: the next range of codes that the signal at a key gained, from the code `from` on. What it lost it gained from B to A.
pub fn next_gained(a: &AcceptedList, b: &AcceptedList, key: usize, from: usize) -> Option<Range>
    ensures { next_range_of result ≡ next_gained (list_as a.now) (list_as b.now) key from }
{
    let i = signal_at(a, key);
    let j = signal_at(b, key);
    if (a.counts.signals <= i) | (b.counts.signals <= j) {
        return None;
    }
    range_from(a, i, b, j, from)
}

// The next signal that was added, removed or changed, at the key `from` or above: a caller that starts at 0 and goes on past each key meets every
// one. Refused: 1 to 4, of a before b.
pub fn signal_change(
    a: &[u8],
    form: u8,
    b: &[u8],
    other: u8,
    from: usize,
) -> Result<Option<Changed>, ListRefused>
    ensures { changes_answer result ≡ signal_changes form a.now other b.now from }
{
    let a = AcceptedList::judged(a, form).map_err(ListRefused::First)?;
    let b = AcceptedList::judged(b, other).map_err(ListRefused::Second)?;
    Ok(next_signal(&a, &b, from))
}

// The same of routes, by destination.
pub fn route_change(
    a: &[u8],
    form: u8,
    b: &[u8],
    other: u8,
    from: usize,
) -> Result<Option<Changed>, ListRefused>
    ensures { changes_answer result ≡ route_changes form a.now other b.now from }
{
    let a = AcceptedList::judged(a, form).map_err(ListRefused::First)?;
    let b = AcceptedList::judged(b, other).map_err(ListRefused::Second)?;
    Ok(next_route(&a, &b, from))
}

// The next range of codes, from the code `from` on, that b knows of the signal at a key and a does not; what was lost is gained from b to a. None
// where one of them has no such signal, or the widths differ or are above 16. Refused: 1 to 4, of a before b.
pub fn codes_gained(
    a: &[u8],
    form: u8,
    b: &[u8],
    other: u8,
    key: usize,
    from: usize,
) -> Result<Option<Range>, ListRefused>
    ensures { gained_answer result ≡ codes_gained form a.now other b.now key from }
{
    let a = AcceptedList::judged(a, form).map_err(ListRefused::First)?;
    let b = AcceptedList::judged(b, other).map_err(ListRefused::Second)?;
    Ok(next_gained(&a, &b, key, from))
}
