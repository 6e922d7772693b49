// The entries of a list's signals, by number.
#![tactic(auto)]

ghost use Rattle.std.specs.Prelude.{◌≡◌, ◌+◌, ◌^◌, ◌<◌, ◌≤◌, length};
ghost use Rattle.paper.specs.SignalList.{entry};
ghost use Rattle.octets.specs.Fields.{NumberRead};
ghost use Rattle.entries.specs.Entries.{SignalRead, OctetRead};

use crate::{Signal, octet_at};

// The rest of a list from its signals' count on, in which `count` entries of `size` octets are present.
#[derive(Clone, Copy)]
pub struct Signals<'a> {
    pub tail: &'a [u8],
    pub size: usize,
    pub count: usize,
    pub ghost sized: { 16 ≤ size },
    pub ghost present: { entry size count ≤ length tail.now },
}

// The last six of the eight octets from `at` on, which are one load.
fn last_six(tail: &[u8], at: usize) -> u64
    requires { at + 8 ≤ length tail.now }
    ensures { NumberRead tail.now (at + 2) 6 result }
{
    octets::read64(tail, at) % 281474976710656
}

impl Signals<'_> {
    ghost use Rattle.entries.specs.Signals.{signals_as};

    // Inner: signal k.
    #[tactic(auto, unfolding(paper::specs::SignalList::signal_at))]
    pub fn get(&self, k: usize) -> Signal
        requires { k < self.now.count }
        ensures { SignalRead (signals_as self.now k) result }
    {
        let at = 2 + self.size * k;
        Signal {
            start: octets::read16(self.tail, at),
            width: octets::wide(self.tail[at + 2]),
            kind: octets::wide(self.tail[at + 3]),
            check: octets::wide(self.tail[at + 4]),
            since: octets::wide(self.tail[at + 5]),
            limit: octets::read32(self.tail, at + 6),
            replacement: last_six(self.tail, at + 8),
        }
    }

    // Inner: its width.
    #[tactic(auto, unfolding(paper::specs::SignalList::signal_at))]
    pub fn width(&self, k: usize) -> usize
        requires { k < self.now.count }
        ensures { OctetRead (signals_as self.now k).width result }
    {
        octets::wide(self.tail[2 + self.size * k + 2])
    }

    // Inner: its since-version.
    #[tactic(auto, unfolding(paper::specs::SignalList::signal_at))]
    pub fn since(&self, k: usize) -> usize
        requires { k < self.now.count }
        ensures { OctetRead (signals_as self.now k).since result }
    {
        octets::wide(self.tail[2 + self.size * k + 5])
    }

    // Inner: the width of signal k, which need not exist: where its offset would be past all numbers, none stands at the greatest.
    #[tactic(auto, unfolding(paper::specs::SignalList::signal_at))]
    pub fn width_at(&self, k: usize) -> usize
        requires { k < 65536 }
        ensures { OctetRead (signals_as self.now k).width result }
    {
        octet_at(self.tail, self.size.saturating_mul(k).saturating_add(4))
    }
}
