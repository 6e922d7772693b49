// The entries of a signal list, read by value, and the rule of each. What has a `requires` is inner: its caller in the library shows it.
#![tactic(auto)]

ghost use Rattle.std.specs.Prelude.{◌≡◌, ◌+◌, ◌-◌, ◌^◌, ◌<◌, ◌≤◌, ◌&&◌, length, get_or, ltb};
ghost use Rattle.paper.specs.SignalList.{entry, check_size, code_size, route_size, check_at};
ghost use Rattle.paper.specs.SignalList.{check_rule, place_rule, named_rule, width_rule, value_rule, route_end};
ghost use Rattle.entries.specs.Entries.{signal_of, code_of, route_of, CheckRead, CodeRead, RouteRead, OctetRead};
ghost use Rattle.entries.specs.Signals.{signals_as};
ghost use Rattle.entries.specs.Entries.{Placeable, in_order, part_keeps, own_keeps, code_keeps, route_keeps};

pub use signals::Signals;

mod signals;

// The octets of an entry of each section; a signal's has so many in form 1, and in form 2 a serial number behind them.
pub const CHECK_SIZE: usize = 2;

pub const SIGNAL_SIZE: usize = 16;

pub const SERIAL_SIZE: usize = 2;

pub const CODE_SIZE: usize = 6;

pub const ROUTE_SIZE: usize = 6;

// The greatest width of a field.
pub const WIDEST: usize = 64;

#[derive(Clone, Copy, Debug, PartialEq, Eq)]
pub struct Signal {
    pub start: usize,
    pub width: usize,
    // The paper's type.
    pub kind: usize,
    pub check: usize,
    pub since: usize,
    pub limit: u64,
    pub replacement: u64,
}

#[derive(Clone, Copy, Debug, PartialEq, Eq)]
pub struct Code {
    pub signal: usize,
    pub low: usize,
    pub high: usize,
}

#[derive(Clone, Copy, Debug, PartialEq, Eq)]
pub struct Route {
    pub signal: usize,
    pub vehicle: usize,
    pub null: usize,
    pub start: usize,
}

// The entry before; the first has none, and stands for itself where nothing is asked of it.
pub fn before(k: usize) -> usize
    ensures { result ≡ k - 1 }
{
    k.saturating_sub(1)
}

// The octet at `at`, 0 past the end: a number that an entry names is not known to exist until its rule was tested.
fn octet_at(s: &[u8], at: usize) -> usize
    ensures { OctetRead (get_or s.now at 0) result }
{
    s.get(at).map_or(0, |x| octets::wide(*x))
}

// Inner: check k of the list.
#[tactic(auto, unfolding(paper::specs::SignalList::check_at))]
pub fn check_at(list: &[u8], k: usize) -> usize
    requires { entry check_size (k + 1) ≤ length list.now }
    ensures { CheckRead (check_at list.now k) result }
{
    octets::read16(list, 2 + CHECK_SIZE * k)
}

// Inner: code entry k, from the codes' count on. One load of eight octets ends with it: even the first has the count before it.
pub fn code_at(tail: &[u8], k: usize) -> Code
    requires { entry code_size (k + 1) ≤ length tail.now }
    ensures { CodeRead tail.now k result }
{
    let x = octets::read64(tail, CODE_SIZE * k);
    Code {
        signal: ((x >> 32) % 65536) as usize,
        low: ((x >> 16) % 65536) as usize,
        high: (x % 65536) as usize,
    }
}

// Inner: route k, from the routes' count on.
#[tactic(auto, unfolding(paper::specs::SignalList::route_at))]
pub fn route_at(tail: &[u8], k: usize) -> Route
    requires { entry route_size (k + 1) ≤ length tail.now }
    ensures { RouteRead tail.now k result }
{
    let at = 2 + ROUTE_SIZE * k;
    Route {
        signal: octets::read16(tail, at),
        vehicle: octets::wide(tail[at + 2]),
        null: octets::wide(tail[at + 3]),
        start: octets::read16(tail, at + 4),
    }
}

// Inner: check k keeps its rule.
#[tactic(auto, unfolding(paper::specs::SignalList::check_rule))]
pub fn check_rule(list: &[u8], k: usize) -> bool
    requires { entry check_size (k + 1) ≤ length list.now }
    ensures { result ≡ check_rule (check_at list.now) k }
{
    let v = check_at(list, k);
    let p = check_at(list, before(k));
    (v % 2 == 0) & (16 <= v) & (v <= 1022) & ((k == 0) | (p < v))
}

// Inner: s lies where its type may.
pub fn place_rule(s: Signal) -> bool
    requires { Placeable s }
    ensures { result ≡ place_rule (signal_of s) }
{
    let end = s.start + s.width;
    if s.kind == 0 {
        return (16 <= s.start) & (end <= 320);
    }
    (320 <= s.start) & (end <= 1024)
}

// Inner: the check that s names exists and is of its part, or s names none.
pub fn named_rule(list: &[u8], checks: usize, s: Signal) -> bool
    requires { entry check_size checks ≤ length list.now }
    ensures { result ≡ named_rule checks (check_at list.now) (signal_of s) }
{
    let c = s.check;
    if c == 0 {
        return true;
    }
    if checks < c {
        return false;
    }
    let low = check_at(list, c - 1) < 320;
    let common = s.kind == 0;
    low & common | !low & !common
}

fn width_rule(s: Signal) -> bool
    ensures { result ≡ width_rule (signal_of s) }
{
    (1 <= s.width) & (s.width <= WIDEST)
}

fn value_rule(s: Signal) -> bool
    ensures { result ≡ value_rule (signal_of s) }
{
    if s.since < 1 {
        return false;
    }
    if 255 < s.since {
        return false;
    }
    if 600000 < s.limit {
        return false;
    }
    octets::fits(s.replacement, s.width)
}

// An entry of `group` that begins at `start`, behind one of the group `last` that reaches to `past`: groups never fall, and within one it begins no earlier.
fn in_order(last: usize, past: usize, group: usize, start: usize) -> bool
    ensures { result ≡ in_order last past group start }
{
    (last < group) | (last == group) & (past <= start)
}

// The same of s, behind a field of type `kind`; most follow one of their type.
fn in_turn(kind: usize, past: usize, s: Signal) -> bool
    ensures { result ≡ in_order kind past s.kind s.start }
{
    if kind == s.kind {
        return past <= s.start;
    }
    kind < s.kind
}

// The type, the place and the check named, by the number of common checks: those are the first, so that none is looked up.
#[tactic(auto, unfolding(crate::specs::Entries::part_keeps))]
fn part_rule(checks: usize, common: usize, s: Signal) -> bool
    requires { Placeable s }
    ensures { result ≡ part_keeps checks common (signal_of s) }
{
    let end = s.start + s.width;
    if s.kind == 0 {
        return (16 <= s.start) & (end <= 320) & (s.check <= common);
    }
    if 2 < s.kind {
        return false;
    }
    let named = ((s.check == 0) | (common < s.check)) & (s.check <= checks);
    (320 <= s.start) & (end <= 1024) & named
}

// Inner: s, behind a field of type `kind` that ends at `past`, keeps its rule but for the checks that it may share a bit with. Each test is a branch, which is
// nearly always foreseen.
#[tactic(auto, unfolding(crate::specs::Entries::own_keeps))]
pub fn signal_own(checks: usize, common: usize, kind: usize, past: usize, s: Signal) -> bool
    requires { Placeable s }
    ensures { result ≡ own_keeps checks common kind past (signal_of s) }
{
    if !width_rule(s) {
        return false;
    }
    if !part_rule(checks, common, s) {
        return false;
    }
    if !value_rule(s) {
        return false;
    }
    in_turn(kind, past, s)
}

// Inner: check j exists and lies before the bit `end`.
pub fn check_before(list: &[u8], checks: usize, j: usize, end: usize) -> bool
    requires { entry check_size checks ≤ length list.now }
    ensures { result ≡ (ltb j checks && ltb (check_at list.now j) end) }
{
    if j < checks {
        check_at(list, j) < end
    } else {
        false
    }
}

// Inner: c, whose least key is `least`, keeps its rule.
#[tactic(auto, unfolding(crate::specs::Entries::code_keeps))]
pub fn code_rule(signals: &Signals, least: usize, c: Code) -> bool
    requires { (c.signal < 65536) × (c.low < 65536) }
    ensures { result ≡ code_keeps signals.now.count (signals_as signals.now) least (code_of c) }
{
    if signals.count <= c.signal {
        return false;
    }
    let w = signals.width(c.signal);
    w <= 16
        && c.low <= c.high
        && octets::fits(c.high as u64, w)
        && least <= c.signal * 65536 + c.low
}

// Inner: r, behind a route that ends at `past`, keeps its rule. The vehicle and the null behind it are one number, of which one range is asked.
pub fn route_rule(signals: &Signals, past: usize, r: Route) -> bool
    requires { (r.vehicle < 256) × (r.null < 256) × (r.start < 65536) }
    ensures { result ≡ route_keeps signals.now.count (signals_as signals.now) past (route_of r) }
{
    if signals.count <= r.signal {
        return false;
    }
    let v = r.vehicle + 256 * r.null;
    (1 <= v) & (v <= 63) & (route_end(signals, r) <= 2048) & (past <= r.start)
}

// Inner: the first bit past a route whose signal exists.
pub fn route_end(signals: &Signals, r: Route) -> usize
    requires { (r.signal < signals.now.count) × (r.start < 65536) }
    ensures { result ≡ route_end (signals_as signals.now) (route_of r) }
{
    r.start + signals.width(r.signal)
}
