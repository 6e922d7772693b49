// A list that was accepted, and its entries.

ghost use Rattle.std.specs.Prelude.{◌≡◌, ◌<◌, ◌≤◌};
ghost use Rattle.paper.specs.Answer.{gives};
ghost use Rattle.paper.specs.SignalList.{signals_part, codes_part, routes_part, place_of, under_list};
ghost use Rattle.paper.specs.Accepted.{Laid};
ghost use Rattle.entries.specs.Entries.{signal_of, CheckRead, SignalRead, CodeRead, RouteRead, OctetRead};
ghost use Rattle.lists.specs.Judged.{counts_of};

use crate::{Counts, judge, rest};
use entries::{CHECK_SIZE, CODE_SIZE, Code, Route, Signal, Signals};
use refusals::Refusal;

// The octets of a list with the counts that it was accepted with.
#[derive(Clone, Copy)]
pub struct AcceptedList<'a> {
    pub octets: &'a [u8],
    pub counts: Counts,
    ghost laid: { Laid octets.now (counts_of counts) },
}

impl<'a> AcceptedList<'a> {
    ghost use Rattle.lists.specs.Listed.{list_as, listed_answer};

    // Judges a list in the form that the caller says. Refused: 1 to 4.
    pub fn judged(octets: &'a [u8], form: u8) -> Result<AcceptedList<'a>, Refusal>
        ensures { listed_answer result ≡ under_list form octets.now gives }
    {
        let counts = judge(octets, form)?;
        Ok(AcceptedList { octets, counts })
    }

    // The rest of the list from its signals' count on.
    pub fn signals_part(&self) -> &'a [u8]
        ensures { result.now ≡ signals_part self.now.octets.now (counts_of self.now.counts) }
    {
        rest(self.octets, CHECK_SIZE, self.counts.checks)
    }

    // From its codes' count on.
    pub fn codes_part(&self) -> &'a [u8]
        ensures { result.now ≡ codes_part self.now.octets.now (counts_of self.now.counts) }
    {
        rest(self.signals_part(), self.counts.size, self.counts.signals)
    }

    // From its routes' count on.
    pub fn routes_part(&self) -> &'a [u8]
        ensures { result.now ≡ routes_part self.now.octets.now (counts_of self.now.counts) }
    {
        rest(self.codes_part(), CODE_SIZE, self.counts.codes)
    }

    // Its signals.
    fn signals(&self) -> Signals<'a>
        ensures { (result.tail.now ≡ signals_part self.now.octets.now (counts_of self.now.counts)) × (result.size ≡ self.now.counts.size) × (result.count ≡ self.now.counts.signals) }
    {
        Signals {
            tail: self.signals_part(),
            size: self.counts.size,
            count: self.counts.signals,
        }
    }

    // Inner: check j.
    pub fn check(&self, j: usize) -> usize
        requires { j < self.now.counts.checks }
        ensures { CheckRead ((list_as self.now).check j) result }
    {
        entries::check_at(self.octets, j)
    }

    // Inner: signal k.
    pub fn signal(&self, k: usize) -> Signal
        requires { k < self.now.counts.signals }
        ensures { SignalRead ((list_as self.now).signal k) result }
    {
        self.signals().get(k)
    }

    // Inner: code entry e.
    pub fn code(&self, e: usize) -> Code
        requires { e < self.now.counts.codes }
        ensures { CodeRead (codes_part self.now.octets.now (counts_of self.now.counts)) e result }
    {
        entries::code_at(self.codes_part(), e)
    }

    // Inner: route r.
    pub fn route(&self, r: usize) -> Route
        requires { r < self.now.counts.routes }
        ensures { RouteRead (routes_part self.now.octets.now (counts_of self.now.counts)) r result }
    {
        entries::route_at(self.routes_part(), r)
    }

    // Inner: the width of signal k, which a route to it has too.
    pub fn width(&self, k: usize) -> usize
        requires { k < self.now.counts.signals }
        ensures { OctetRead ((list_as self.now).signal k).width result }
    {
        self.signals().width(k)
    }

    // Inner: the place of the check that the signal names, 0 for none: the same check may have another number in another list.
    pub fn place(&self, s: Signal) -> usize
        requires { s.check ≤ self.now.counts.checks }
        ensures { result ≡ place_of (list_as self.now) (signal_of s) }
    {
        if s.check == 0 {
            return 0;
        }
        self.check(s.check - 1)
    }
}
