// The judging of a signal list, and the entries of an accepted one. Each section judge takes the rest of the list from its count onward and
// hands on the rest past its entries.
#![tactic(auto)]

ghost use Rattle.std.specs.Prelude.{◌≡◌, ◌-◌, ◌^◌, ◌≤◌, ◌<◌, max, true, cond, length, leb, IfOk};
ghost use Rattle.paper.specs.Answer.{shift};
ghost use Rattle.paper.specs.First.{first_bad, all};
ghost use Rattle.paper.specs.SignalList.{entry, check_size, signal_size, code_size, route_size, check_at, signal_at, code_at, route_at};
ghost use Rattle.paper.specs.SignalList.{check_rule, signal_rule, code_rule, route_rule, opening, greatest_since};
ghost use Rattle.paper.specs.SignalList.{from_routes, from_codes, from_signals, judge_sized, judge as judgedList, rest as rest_of};
ghost use Rattle.paper.specs.SignalList.{list_of, signals_part, codes_part, routes_part, place_of};
ghost use Rattle.paper.specs.Accepted.{RefusedWithin, Laid, Sized};
ghost use Rattle.entries.specs.Entries.{signal_of, code_of, code_past, Parted, CheckRead, SignalRead, CodeRead, RouteRead, OctetRead};
ghost use Rattle.entries.specs.Signals.{signals_as};
ghost use Rattle.lists.specs.Judged.{Carries, section_answer, sized_answer, judged_answer};

pub use accepted::AcceptedList;
use entries::{CHECK_SIZE, CODE_SIZE, Code, ROUTE_SIZE, SERIAL_SIZE, SIGNAL_SIZE, Signal, Signals};
use refusals::Refusal;

mod accepted;

// How many entries a section has at most.
pub const MOST_CHECKS: usize = 64;

pub const MOST_SIGNALS: usize = 256;

pub const MOST_CODES: usize = 512;

pub const MOST_ROUTES: usize = 512;

// The form of a list is a number that the caller says: 2 is form 2, with a serial number behind each signal, and any other is form 1.
pub const FORM_1: u8 = 1;

pub const FORM_2: u8 = 2;

// A signal's entry in form 2.
const SERIAL_ENTRY: usize = SIGNAL_SIZE + SERIAL_SIZE;

// The four counts, and every entry that a list may have, in the longer form.
pub const LONGEST: usize = 8
    + CHECK_SIZE * MOST_CHECKS
    + SERIAL_ENTRY * MOST_SIGNALS
    + CODE_SIZE * MOST_CODES
    + ROUTE_SIZE * MOST_ROUTES;

// What an accepted list is reported with.
#[derive(Clone, Copy, Debug, PartialEq, Eq)]
pub struct Counts {
    pub checks: usize,
    pub signals: usize,
    pub codes: usize,
    pub routes: usize,
    pub version: usize,
    // The octets of a signal entry.
    pub size: usize,
}

// The rule that a list breaks, with the offset of the count, of the entry or of the first octet too many, in the part that was judged.
#[derive(Clone, Copy, Debug, PartialEq, Eq)]
pub struct Broken {
    pub rule: Rule,
    pub at: usize,
}

#[derive(Clone, Copy, Debug, PartialEq, Eq)]
pub enum Rule {
    Ends,
    CountAbove,
    Entry,
    OctetsAfter,
}

impl From<Broken> for Refusal {
    ghost from_gives = { λ b r. Carries b r };

    fn from(b: Broken) -> Refusal {
        match b.rule {
            Rule::Ends => Refusal::ListEnds(b.at),
            Rule::CountAbove => Refusal::CountAbove(b.at),
            Rule::Entry => Refusal::EntryBroken(b.at),
            Rule::OctetsAfter => Refusal::OctetsAfter(b.at),
        }
    }
}

// Inner: the count readable, within its limit, and its entries of `size` octets all present.
pub fn open(tail: &[u8], limit: usize, size: usize) -> Result<usize, Broken>
    requires { size ≤ 18 }
    ensures answer { section_answer result ≡ opening limit size tail.now }
    ensures present { IfOk result (λ n. (n ≤ limit) × (entry size n ≤ length tail.now)) }
{
    if tail.len() < 2 {
        return Err(Broken {
            rule: Rule::Ends,
            at: 0,
        });
    }
    let n = octets::read16(tail, 0);
    if limit < n {
        return Err(Broken {
            rule: Rule::CountAbove,
            at: 0,
        });
    }
    if tail.len() < 2 + size * n {
        return Err(Broken {
            rule: Rule::Ends,
            at: 0,
        });
    }
    Ok(n)
}

// Inner: the rest of a list past a section of n entries.
pub fn rest(tail: &[u8], size: usize, n: usize) -> &[u8]
    requires { entry size n ≤ length tail.now }
    ensures { result.now ≡ rest_of size n tail.now }
{
    let end = 2 + size * n;
    &tail[end..]
}

// Inner: the first of n checks that breaks its rule, n where none does.
pub fn first_bad_check(list: &[u8], n: usize) -> usize
    requires { entry check_size n ≤ length list.now }
    ensures first { result ≡ first_bad (check_rule (check_at list.now)) n }
    ensures within { result ≤ n }
{
    for k in 0..n {
        if !entries::check_rule(list, k) {
            return k;
        }
    }
    n
}

// The first check that s may share a bit with: those before `from` end at or before `past`.
fn resumed(past: usize, s: Signal, from: usize) -> usize
    ensures { result ≡ cond (leb past s.start) from 0 }
{
    if past <= s.start { from } else { 0 }
}

// How many of the checks lie in the octets that every type carries: checks rise, so these are the first.
fn common_checks(list: &[u8], checks: usize) -> usize
    requires { (entry check_size checks ≤ length list.now) × (all (check_rule (check_at list.now)) checks ≡ true) }
    ensures { Parted checks (check_at list.now) result }
{
    let mut j = 0;
    while entries::check_before(list, checks, j, 320) {
        j += 1;
    }
    j
}

// Inner: the offset of the first signal that breaks its rule, or the end of the section. Each is tested by its own rule and then against the checks from
// the first that may share a bit with it to the first at or past its end: checks rise, and starts do within a type.
pub fn first_bad_signal(list: &[u8], checks: usize, signals: &Signals) -> usize
    requires { (entry check_size checks ≤ length list.now) × (all (check_rule (check_at list.now)) checks ≡ true) }
    ensures { result ≡ entry signals.now.size (first_bad (signal_rule checks (check_at list.now) (signals_as signals.now)) signals.now.count) }
{
    let common = common_checks(list, checks);
    let mut kind = 0;
    let mut past = 0;
    let mut from = 0;
    'signals: {
        for k in 0..signals.count {
            let s = signals.get(k);
            if !entries::signal_own(checks, common, kind, past, s) {
                break 'signals 2 + signals.size * k;
            }
            let end = s.start + s.width;
            let mut j = resumed(past, s, from);
            // While: to the first check past the end, which the next signal goes on from.
            while entries::check_before(list, checks, j, end) {
                if s.start < entries::check_at(list, j) + 2 {
                    break 'signals 2 + signals.size * k;
                }
                j += 1;
            }
            from = j;
            kind = s.kind;
            past = end;
        }
        2 + signals.size * signals.count
    }
}

// The least key of a code entry behind c.
fn code_past(c: Code) -> usize
    requires { c.signal < 65536 }
    ensures { result ≡ code_past (code_of c) }
{
    if 65534 < c.high {
        return c.signal * 65536 + 65536;
    }
    c.signal * 65536 + (c.high + 2)
}

// Inner: the first of n codes that breaks its rule, n where none does.
pub fn first_bad_code(signals: &Signals, tail: &[u8], n: usize) -> usize
    requires { entry code_size n ≤ length tail.now }
    ensures first { result ≡ first_bad (code_rule signals.now.count (signals_as signals.now) (code_at tail.now)) n }
    ensures within { result ≤ n }
{
    let mut least = 0;
    for k in 0..n {
        let c = entries::code_at(tail, k);
        if !entries::code_rule(signals, least, c) {
            return k;
        }
        least = code_past(c);
    }
    n
}

// Inner: the same of n routes.
pub fn first_bad_route(signals: &Signals, tail: &[u8], n: usize) -> usize
    requires { entry route_size n ≤ length tail.now }
    ensures first { result ≡ first_bad (route_rule signals.now.count (signals_as signals.now) (route_at tail.now)) n }
    ensures within { result ≤ n }
{
    let mut past = 0;
    for k in 0..n {
        let r = entries::route_at(tail, k);
        if !entries::route_rule(signals, past, r) {
            return k;
        }
        past = entries::route_end(signals, r);
    }
    n
}

// The greatest since-version of the signals, 1 if there is none.
fn greatest_version(signals: &Signals) -> usize
    ensures { result ≡ greatest_since signals.now.count (signals_as signals.now) }
{
    let mut version = 1;
    for k in 0..signals.count {
        version = version.max(signals.since(k));
    }
    version
}

// The same. The entries of form 1 are gone through by a size that the compiler knows, two at a time.
fn version_of(signals: &Signals) -> usize
    ensures { result ≡ greatest_since signals.now.count (signals_as signals.now) }
{
    if signals.size == SIGNAL_SIZE {
        return greatest_version(&Signals {
            tail: signals.tail,
            size: SIGNAL_SIZE,
            count: signals.count,
        });
    }
    greatest_version(signals)
}

// The answer of the rest of a list that starts `by` octets on.
fn moved(rest: Result<Counts, Broken>, by: usize) -> Result<Counts, Broken>
    requires { RefusedWithin (2 ^ 64 - 1) (shift by (sized_answer rest)) }
    ensures { sized_answer result ≡ shift by (sized_answer rest) }
{
    match rest {
        Ok(n) => Ok(n),
        Err(b) => Err(Broken {
            rule: b.rule,
            at: by + b.at,
        }),
    }
}

// The list from its routes on.
fn from_routes(
    signals: &Signals,
    checks: usize,
    codes: usize,
    tail: &[u8],
) -> Result<Counts, Broken>
    ensures { sized_answer result ≡ from_routes signals.now.size signals.now.count (signals_as signals.now) checks codes tail.now }
{
    let routes = open(tail, MOST_ROUTES, ROUTE_SIZE)?;
    let at = 2 + ROUTE_SIZE * first_bad_route(signals, tail, routes);
    let end = 2 + ROUTE_SIZE * routes;
    if at < end {
        return Err(Broken {
            rule: Rule::Entry,
            at,
        });
    }
    if end < tail.len() {
        return Err(Broken {
            rule: Rule::OctetsAfter,
            at: end,
        });
    }
    Ok(Counts {
        checks,
        signals: signals.count,
        codes,
        routes,
        version: version_of(signals),
        size: signals.size,
    })
}

// From its codes on.
fn from_codes(signals: &Signals, checks: usize, tail: &[u8]) -> Result<Counts, Broken>
    ensures { sized_answer result ≡ from_codes signals.now.size signals.now.count (signals_as signals.now) checks tail.now }
{
    let codes = open(tail, MOST_CODES, CODE_SIZE)?;
    let at = 2 + CODE_SIZE * first_bad_code(signals, tail, codes);
    let end = 2 + CODE_SIZE * codes;
    if at < end {
        return Err(Broken {
            rule: Rule::Entry,
            at,
        });
    }
    let onward = rest(tail, CODE_SIZE, codes);
    moved(from_routes(signals, checks, codes, onward), end)
}

// From its signals on; list starts at the checks' count.
fn from_signals(list: &[u8], checks: usize, tail: &[u8], size: usize) -> Result<Counts, Broken>
    requires checks_in_bounds { (entry check_size checks ≤ length list.now) × (all (check_rule (check_at list.now)) checks ≡ true) }
    requires sized { Sized size }
    ensures { sized_answer result ≡ from_signals size checks (check_at list.now) tail.now }
{
    let count = open(tail, MOST_SIGNALS, size)?;
    let signals = Signals { tail, size, count };
    let at = first_bad_signal(list, checks, &signals);
    let end = 2 + size * count;
    if at < end {
        return Err(Broken {
            rule: Rule::Entry,
            at,
        });
    }
    moved(from_codes(&signals, checks, rest(tail, size, count)), end)
}

// Judges a list whose signal entries have `size` octets.
fn judge_sized(list: &[u8], size: usize) -> Result<Counts, Broken>
    requires { Sized size }
    ensures { sized_answer result ≡ judge_sized size list.now }
{
    let checks = open(list, MOST_CHECKS, CHECK_SIZE)?;
    let at = 2 + CHECK_SIZE * first_bad_check(list, checks);
    let end = 2 + CHECK_SIZE * checks;
    if at < end {
        return Err(Broken {
            rule: Rule::Entry,
            at,
        });
    }
    moved(
        from_signals(list, checks, rest(list, CHECK_SIZE, checks), size),
        end,
    )
}

// The octets of a signal entry in a form.
pub fn entry_size(form: u8) -> usize
    ensures { result ≡ signal_size form }
{
    if form == FORM_2 {
        SERIAL_ENTRY
    } else {
        SIGNAL_SIZE
    }
}

// Judges a list in the form that the caller says: its counts and version, or the first refusal that judging meets.
pub fn judge(list: &[u8], form: u8) -> Result<Counts, Refusal>
    ensures { judged_answer result ≡ judgedList form list.now }
{
    let counts = judge_sized(list, entry_size(form))?;
    Ok(counts)
}
