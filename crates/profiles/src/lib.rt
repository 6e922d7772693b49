// Profiles: narrower rules for the lists of small controllers, judged behind the general rules.
#![tactic(auto)]

ghost use Rattle.std.specs.Prelude.{◌≡◌, ◌+◌, ◌≤◌, ◌<◌, eqb, ◌&&◌, ◌||◌};
ghost use Rattle.paper.specs.First.{first_bad, all};
ghost use Rattle.paper.specs.Telegrams.{check_place};
ghost use Rattle.paper.specs.Profiles.{gives_place, signal_broken, route_broken, signal_breach, route_breach, breach_in, breach_of, profiling};
ghost use Rattle.lists.specs.Judged.{counts_of, judged_answer};
ghost use Rattle.lists.specs.Listed.{list_as};
ghost use Rattle.faults.specs.Faults.{fault_as, fault_answer};
ghost use Rattle.known.specs.Known.{Entries};
ghost use Rattle.profiles.specs.Profiles.{profile_of};

use entries::{CHECK_SIZE, CODE_SIZE, ROUTE_SIZE};
use faults::Fault;
use known::Span;
use lists::{AcceptedList, Counts};
use refusals::Refusal;

// Whose controllers: both allow 64 signals, limits to 5,000 ms and 16 octets of data.
#[derive(Clone, Copy, Debug, PartialEq, Eq)]
pub enum Profile {
    PlainCoach,
    DrivingTrailer,
}

// Whether a type of signals is allowed: R1 is by driving trailers alone.
fn allows_type(profile: Profile, kind: usize) -> bool
    ensures { result ≡ (eqb kind 0 || (profile_of profile).r1 && eqb kind 1) }
{
    match profile {
        Profile::PlainCoach => kind == 0,
        Profile::DrivingTrailer => (kind == 0) | (kind == 1),
    }
}

// Whether the grouping gives a bit this check place.
fn is_at(bit: u64, place: usize) -> bool
    ensures { result ≡ gives_place (check_place bit) place }
{
    match grouping::check_place(bit) {
        Ok(p) => p == place,
        Err(_) => false,
    }
}

// Whether it gives it to every bit of a field.
fn is_under(start: usize, width: usize, place: usize) -> bool
    requires { (start < 65536) × (width < 256) }
    ensures { result ≡ all (λ i. gives_place (check_place (start + i)) place) width }
{
    for i in 0..width {
        if !is_at((start + i) as u64, place) {
            return false;
        }
    }
    true
}

// The first rule that signal k breaks, with its code entries; 0 for none.
#[tactic(auto, using(crate::proofs::Laws::signal_laws))]
fn signal_broken(list: &AcceptedList, profile: Profile, k: usize, own: Span) -> usize
    requires { (k < list.now.counts.signals) × (Entries (list_as list.now) k own) }
    ensures { result ≡ signal_broken (profile_of profile) (list_as list.now) k }
{
    let s = list.signal(k);
    if !allows_type(profile, s.kind) {
        return 1;
    }
    if 64 <= k {
        return 2;
    }
    if s.check == 0 {
        return 3;
    }
    if (s.limit == 0) | (5000 < s.limit) {
        return 4;
    }
    if !known::knows(list, k, own, s.replacement) {
        return 5;
    }
    if s.kind == 0 {
        return 0;
    }
    if is_under(s.start, s.width, list.place(s)) {
        return 0;
    }
    6
}

// The first signal that breaks the profile, or the number of signals; e is where its code entries are looked for.
fn first_bad_signal(list: &AcceptedList, profile: Profile) -> usize
    ensures { result ≡ first_bad (λ k. eqb (signal_broken (profile_of profile) (list_as list.now) k) 0) list.now.counts.signals }
{
    let mut e = 0;
    for k in 0..list.counts.signals {
        let own = known::entries_from(list, e, k);
        if signal_broken(list, profile, k, own) != 0 {
            return k;
        }
        e = own.to;
    }
    list.counts.signals
}

// The same of route r.
#[tactic(auto, using(crate::proofs::Laws::route_to, crate::proofs::Laws::route_kept, crate::proofs::Laws::route_far))]
fn route_broken(list: &AcceptedList, profile: Profile, r: usize) -> usize
    requires { r < list.now.counts.routes }
    ensures { result ≡ route_broken (profile_of profile) (list_as list.now) r }
{
    let t = list.route(r);
    if t.start + list.width(t.signal) <= 128 {
        0
    } else {
        1
    }
}

// The first route that breaks it, or the number of routes.
fn first_bad_route(list: &AcceptedList, profile: Profile) -> usize
    ensures { result ≡ first_bad (λ k. eqb (route_broken (profile_of profile) (list_as list.now) k) 0) list.now.counts.routes }
{
    for r in 0..list.counts.routes {
        if route_broken(list, profile, r) != 0 {
            return r;
        }
    }
    list.counts.routes
}

fn signal_breach(list: &AcceptedList, profile: Profile, k: usize) -> Fault
    requires { k < list.now.counts.signals }
    ensures { fault_as result ≡ signal_breach (profile_of profile) (list_as list.now) (counts_of list.now.counts) k }
{
    let s = list.signal(k);
    let own = known::entries_of(list, k);
    Fault {
        section: 2,
        index: k,
        rule: signal_broken(list, profile, k, own),
        signal: k,
        kind: s.kind,
        start: s.start,
        width: s.width,
        at: (2 + CHECK_SIZE * list.counts.checks) + (2 + list.counts.size * k),
    }
}

#[tactic(auto, using(crate::proofs::Laws::route_to))]
fn route_breach(list: &AcceptedList, profile: Profile, r: usize) -> Fault
    requires { r < list.now.counts.routes }
    ensures { fault_as result ≡ route_breach (profile_of profile) (list_as list.now) (counts_of list.now.counts) r }
{
    let n = list.counts;
    let t = list.route(r);
    let s = list.signal(t.signal);
    let signals = 2 + CHECK_SIZE * n.checks;
    let codes = 2 + n.size * n.signals;
    let routes = 2 + CODE_SIZE * n.codes;
    Fault {
        section: 4,
        index: r,
        rule: route_broken(list, profile, r),
        signal: t.signal,
        kind: s.kind,
        start: s.start,
        width: s.width,
        at: signals + (codes + (routes + (2 + ROUTE_SIZE * r))),
    }
}

// The entry at fault of an accepted list. Signals come before routes.
#[tactic(auto, using(crate::proofs::Laws::breach_here, crate::proofs::Laws::breach_past), unfolding(paper::specs::Profiles::breach_in))]
fn breach_in(list: &AcceptedList, profile: Profile) -> Option<Fault>
    ensures { fault_answer result ≡ breach_in (profile_of profile) list.now.octets.now (counts_of list.now.counts) }
{
    let k = first_bad_signal(list, profile);
    if k < list.counts.signals {
        return Some(signal_breach(list, profile, k));
    }
    let r = first_bad_route(list, profile);
    if r < list.counts.routes {
        return Some(route_breach(list, profile, r));
    }
    None
}

// The first entry that breaks the profile, and the first rule of it that is broken: of signals 1 type, 2 number, 3 check, 4 limit, 5 replacement,
// 6 place of R1; of routes 1 end. None where the list is refused by the general rules, or accepted.
pub fn find_breach(profile: Profile, list: &[u8], form: u8) -> Option<Fault>
    ensures { fault_answer result ≡ breach_of (profile_of profile) form list.now }
{
    let counts = lists::judge(list, form).ok()?;
    let accepted = AcceptedList {
        octets: list,
        counts,
    };
    breach_in(&accepted, profile)
}

// Judges a list under a profile: accepted as `judge` accepts it. Refused: 1 to 4, then 34 with the offset of the first entry that breaks the profile.
#[tactic(auto, unfolding(paper::specs::Profiles::profiling))]
pub fn judge_profile(profile: Profile, list: &[u8], form: u8) -> Result<Counts, Refusal>
    ensures { judged_answer result ≡ profiling (profile_of profile) form list.now }
{
    let counts = lists::judge(list, form)?;
    let accepted = AcceptedList {
        octets: list,
        counts,
    };
    match breach_in(&accepted, profile) {
        Some(breach) => Err(Refusal::Profile(breach.at)),
        None => Ok(counts),
    }
}
