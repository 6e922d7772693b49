// Which entry of a list judging refuses with 3, and which rule it breaks. What has a `requires` is inner: its caller shows it.
#![tactic(auto)]

ghost use Rattle.std.specs.Prelude.{◌≡◌, true, false, ◌+◌, ◌^◌, ◌<◌, ◌≤◌, length, ltb};
ghost use Rattle.paper.specs.First.{stop, all};
ghost use Rattle.paper.specs.SignalList.{entry, check_size, code_size, route_size, check_at, signal_at, code_at, route_at, check_rule, signal_rule};
ghost use Rattle.paper.specs.Accepted.{Sized};
ghost use Rattle.paper.specs.Broken.{broken_or, broken, named, check_fault, signal_fault, code_fault, route_fault, fault_from_routes, fault_from_codes, fault_from_signals, fault_of};
ghost use Rattle.entries.specs.Entries.{signal_of, code_of, route_of, Placeable};
ghost use Rattle.entries.specs.Signals.{signals_as};
ghost use Rattle.faults.specs.Faults.{fault_as, fault_answer, value_tests, order_tests, place_tests, code_tests_of, route_tests_of};

use entries::{CHECK_SIZE, CODE_SIZE, Code, ROUTE_SIZE, Route, Signal, Signals, WIDEST};
use lists::{MOST_CHECKS, MOST_CODES, MOST_ROUTES, MOST_SIGNALS};

// The entry at fault: its section, from 1, its number in it, from 0, and the first rule that it breaks, from 1; the number of the signal that it is or
// names, with its type and field, all 0 where there is none (of a check: no signal, its own two bits); its offset in the list.
#[derive(Clone, Copy, Debug, PartialEq, Eq)]
pub struct Fault {
    pub section: usize,
    pub index: usize,
    pub rule: usize,
    pub signal: usize,
    pub kind: usize,
    pub start: usize,
    pub width: usize,
    pub at: usize,
}

// The rule's number where it is not kept, else what the later ones say.
fn unless(kept: bool, number: usize, later: usize) -> usize
    ensures { result ≡ stop kept number later }
{
    if kept { later } else { number }
}

// The signal that an entry names; all 0 where there is none.
fn named_signal(signals: &Signals, j: usize) -> Signal
    ensures { signal_of result ≡ named signals.now.count (signals_as signals.now) j }
{
    if j < signals.count {
        return signals.get(j);
    }
    Signal {
        start: 0,
        width: 0,
        kind: 0,
        check: 0,
        since: 0,
        limit: 0,
        replacement: 0,
    }
}

fn check_fault(list: &[u8], k: usize) -> Fault
    requires { entry check_size (k + 1) ≤ length list.now }
    ensures { fault_as result ≡ check_fault (check_at list.now) k }
{
    let v = entries::check_at(list, k);
    let p = entries::check_at(list, entries::before(k));
    let last = unless((k == 0) | (p < v), 4, 0);
    let rule = unless(
        v % 2 == 0,
        1,
        unless(16 <= v, 2, unless(v <= 1022, 3, last)),
    );
    Fault {
        section: 1,
        index: k,
        rule,
        signal: 0,
        kind: 0,
        start: v,
        width: 2,
        at: 2 + CHECK_SIZE * k,
    }
}

// Since, limit and replacement.
fn value_number(s: Signal, later: usize) -> usize
    ensures { result ≡ broken_or 5 (value_tests (signal_of s)) later }
{
    let last = unless(octets::fits(s.replacement, s.width), 7, later);
    unless(
        (1 <= s.since) & (s.since <= 255),
        5,
        unless(s.limit <= 600000, 6, last),
    )
}

// The order behind the signal p. Where that is kept too, s shares a bit with a check: the entry breaks one of its rules.
fn order_number(k: usize, p: Signal, s: Signal) -> usize
    requires { Placeable p }
    ensures { result ≡ broken_or 8 (order_tests k (signal_of p) (signal_of s)) 10 }
{
    let is_clear = (k == 0) | (p.kind != s.kind) | (p.start + p.width <= s.start);
    unless((k == 0) | (p.kind <= s.kind), 8, unless(is_clear, 9, 10))
}

// `later` is what the rules from the fifth on say.
fn signal_number(list: &[u8], checks: usize, s: Signal, later: usize) -> usize
    requires { (entry check_size checks ≤ length list.now) × (Placeable s) }
    ensures { result ≡ broken_or 1 (place_tests checks (check_at list.now) (signal_of s)) later }
{
    let last = unless(entries::named_rule(list, checks, s), 4, later);
    let is_wide = (1 <= s.width) & (s.width <= WIDEST);
    unless(
        is_wide,
        1,
        unless(s.kind <= 2, 2, unless(entries::place_rule(s), 3, last)),
    )
}

// Of a section that starts `base` octets on.
#[tactic(auto, using(crate::proofs::Laws::small_entry, crate::proofs::Laws::rule_is))]
fn signal_fault(base: usize, list: &[u8], checks: usize, signals: &Signals, k: usize) -> Fault
    requires checks_in_bounds { entry check_size checks ≤ length list.now }
    requires in_bounds { (base ≤ 65536) × (k < 65536) × (k < signals.now.count) }
    requires k_value { signal_rule checks (check_at list.now) (signals_as signals.now) k ≡ false }
    ensures { fault_as result ≡ signal_fault signals.now.size base checks (check_at list.now) (signals_as signals.now) k }
{
    let s = signals.get(k);
    let p = signals.get(entries::before(k));
    let later = value_number(s, order_number(k, p, s));
    Fault {
        section: 2,
        index: k,
        rule: signal_number(list, checks, s, later),
        signal: k,
        kind: s.kind,
        start: s.start,
        width: s.width,
        at: base + (2 + signals.size * k),
    }
}

// c behind p, of a signal of `width` bits.
fn code_number(signals: usize, width: usize, k: usize, p: Code, c: Code) -> usize
    requires { (p.high < 65536) × (c.high < 65536) }
    ensures { result ≡ broken (code_tests_of signals width k (code_of p) (code_of c)) }
{
    let is_clear = (k == 0) | (p.signal != c.signal) | (p.high + 2 <= c.low);
    let order = unless((k == 0) | (p.signal <= c.signal), 5, unless(is_clear, 6, 0));
    let high = unless(octets::fits(c.high as u64, width), 4, order);
    unless(
        c.signal < signals,
        1,
        unless(width <= 16, 2, unless(c.low <= c.high, 3, high)),
    )
}

fn code_fault(base: usize, signals: &Signals, tail: &[u8], k: usize) -> Fault
    requires in_bounds { (base ≤ 65536) × (k < 65536) × (entry code_size (k + 1) ≤ length tail.now) }
    ensures { fault_as result ≡ code_fault base signals.now.count (signals_as signals.now) (code_at tail.now) k }
{
    let c = entries::code_at(tail, k);
    let p = entries::code_at(tail, entries::before(k));
    let width = signals.width_at(c.signal);
    let s = named_signal(signals, c.signal);
    Fault {
        section: 3,
        index: k,
        rule: code_number(signals.count, width, k, p, c),
        signal: c.signal,
        kind: s.kind,
        start: s.start,
        width: s.width,
        at: base + (2 + CODE_SIZE * k),
    }
}

// r, which ends at `end`, behind a route that ends at `past`.
fn route_number(signals: usize, end: usize, k: usize, past: usize, r: Route) -> usize
    ensures { result ≡ broken (route_tests_of signals end k past (route_of r)) }
{
    let last = unless(end <= 2048, 4, unless((k == 0) | (past <= r.start), 5, 0));
    let is_vehicle = (1 <= r.vehicle) & (r.vehicle <= 63);
    unless(
        r.signal < signals,
        1,
        unless(is_vehicle, 2, unless(r.null == 0, 3, last)),
    )
}

fn route_fault(base: usize, signals: &Signals, tail: &[u8], k: usize) -> Fault
    requires in_bounds { (base ≤ 65536) × (k < 65536) × (entry route_size (k + 1) ≤ length tail.now) }
    ensures { fault_as result ≡ route_fault base signals.now.count (signals_as signals.now) (route_at tail.now) k }
{
    let r = entries::route_at(tail, k);
    let p = entries::route_at(tail, entries::before(k));
    let end = r.start + signals.width_at(r.signal);
    let past = p.start + signals.width_at(p.signal);
    let s = named_signal(signals, r.signal);
    Fault {
        section: 4,
        index: k,
        rule: route_number(signals.count, end, k, past, r),
        signal: r.signal,
        kind: s.kind,
        start: s.start,
        width: s.width,
        at: base + (2 + ROUTE_SIZE * k),
    }
}

// The list from its routes on, which start `base` octets on.
fn from_routes(base: usize, signals: &Signals, tail: &[u8]) -> Option<Fault>
    requires { base ≤ 65536 }
    ensures { fault_answer result ≡ fault_from_routes base signals.now.count (signals_as signals.now) tail.now }
{
    let n = lists::open(tail, MOST_ROUTES, ROUTE_SIZE).ok()?;
    let k = lists::first_bad_route(signals, tail, n);
    if k < n {
        return Some(route_fault(base, signals, tail, k));
    }
    None
}

// From its codes on.
fn from_codes(base: usize, signals: &Signals, tail: &[u8]) -> Option<Fault>
    requires { base ≤ 32768 }
    ensures { fault_answer result ≡ fault_from_codes base signals.now.count (signals_as signals.now) tail.now }
{
    let n = lists::open(tail, MOST_CODES, CODE_SIZE).ok()?;
    let k = lists::first_bad_code(signals, tail, n);
    if k < n {
        return Some(code_fault(base, signals, tail, k));
    }
    let past = base + (2 + CODE_SIZE * n);
    from_routes(past, signals, lists::rest(tail, CODE_SIZE, n))
}

// From its signals on; list starts at the checks' count.
fn from_signals(base: usize, list: &[u8], checks: usize, tail: &[u8], size: usize) -> Option<Fault>
    requires sized { Sized size }
    requires base_small { base ≤ 16384 }
    requires checks_in_bounds { entry check_size checks ≤ length list.now }
    requires checks_kept { all (check_rule (check_at list.now)) checks ≡ true }
    ensures { fault_answer result ≡ fault_from_signals size base checks (check_at list.now) tail.now }
{
    let count = lists::open(tail, MOST_SIGNALS, size).ok()?;
    let signals = Signals { tail, size, count };
    let at = lists::first_bad_signal(list, checks, &signals);
    let end = 2 + size * count;
    if at < end {
        let k = (at - 2) / size;
        return Some(signal_fault(base, list, checks, &signals, k));
    }
    from_codes(base + end, &signals, lists::rest(tail, size, count))
}

// The entry that judging refuses with 3 in the form that the caller says, with the first rule that it breaks. None where the list is accepted, or
// refused otherwise.
pub fn find_fault(list: &[u8], form: u8) -> Option<Fault>
    ensures { fault_answer result ≡ fault_of form list.now }
{
    let n = lists::open(list, MOST_CHECKS, CHECK_SIZE).ok()?;
    let k = lists::first_bad_check(list, n);
    if k < n {
        return Some(check_fault(list, k));
    }
    let past = 2 + CHECK_SIZE * n;
    let size = lists::entry_size(form);
    from_signals(past, list, n, lists::rest(list, CHECK_SIZE, n), size)
}
