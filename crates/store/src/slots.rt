// A vehicle's slot: the heard octet, the stamp, the stamp before it and the telegram, and what they say.
#![tactic(auto)]

ghost use Rattle.std.specs.Prelude.{◌≡◌, length, if◌then◌else◌};
ghost use Rattle.paper.specs.Store.{slot_octets, slot_from, ever_heard, moved, age, gap, in_time, stale, expired, timely};
ghost use Rattle.paper.specs.Reading.{heard, held_in};

use crate::Held;

// The heard octet, the stamp and the previous stamp.
pub(crate) const HEAD: usize = 9;

pub(crate) const PREVIOUS: usize = 5;

// The heard octet of a slot that was heard, and of one that a sweep found too old for any time limit. Any other was never heard.
pub(crate) const HEARD: u8 = 1;

pub(crate) const EXPIRED: u8 = 2;

// The longest time limit that a list may set.
const LONGEST_LIMIT: u32 = 600000;

// The octets of one slot, all of them.
#[derive(Clone, Copy)]
pub struct Slot<'a> {
    pub octets: &'a [u8],
    pub ghost whole: { length octets.now ≡ slot_octets },
}

// A clock that went back gives a large age.
#[tactic(auto, unfolding(paper::specs::Store::age))]
fn age(clock: u32, stamp: u32) -> u32
    ensures { result ≡ age clock stamp }
{
    clock.wrapping_sub(stamp)
}

fn in_time(old: u32, limit: u64) -> bool
    ensures { result ≡ in_time old limit }
{
    (old as u64 <= limit) | (limit == 0)
}

impl<'a> Slot<'a> {
    ghost use Rattle.store.specs.Store.{as_held};

    fn stamp(self) -> u32
        ensures { result ≡ (slot_from self.entry.octets.now).stamp }
    {
        octets::read32(self.octets, 1) as u32
    }

    // The stamp before it.
    fn previous(self) -> u32
        ensures { result ≡ (slot_from self.entry.octets.now).previous }
    {
        octets::read32(self.octets, PREVIOUS) as u32
    }

    pub fn telegram(self) -> &'a [u8]
        ensures { result.now ≡ (slot_from self.entry.octets.now).telegram }
    {
        &self.octets[HEAD..]
    }

    // Heard, expired since or not, whatever its telegram's head.
    fn was_heard(self) -> bool
        ensures { result ≡ ever_heard (slot_from self.entry.octets.now) }
    {
        let mark = self.octets[0];
        (mark == HEARD) | (mark == EXPIRED)
    }

    // The stamp that a telegram taken into the slot moves, 0 where none was heard.
    pub(crate) fn moved(self) -> u32
        ensures { result ≡ moved (slot_from self.entry.octets.now) }
    {
        if self.was_heard() { self.stamp() } else { 0 }
    }

    // Heard, expired since or not, and its head is an R-telegram's. Each test is a branch, which is nearly always foreseen.
    #[tactic(auto, unfolding(paper::specs::Reading::heard))]
    pub fn is_heard(self) -> bool
        ensures { result ≡ heard (slot_from self.entry.octets.now) }
    {
        let t = self.telegram();
        self.was_heard()
            && telegrams::application_type(t) == 1
            && telegrams::is_type(telegrams::telegram_type(t))
    }

    // A sweep has marked it.
    fn is_expired(self) -> bool
        ensures { result ≡ expired (slot_from self.entry.octets.now) }
    {
        self.octets[0] == EXPIRED
    }

    // The age that is told where it was heard.
    fn held_age(self, clock: u32) -> u32
        ensures { result ≡ (if expired (slot_from self.entry.octets.now) then 0 else age clock (slot_from self.entry.octets.now).stamp) }
    {
        if self.is_expired() {
            return 0;
        }
        age(clock, self.stamp())
    }

    // What it says of its telegram; none where nothing was heard.
    #[tactic(auto, unfolding(paper::specs::Reading::held_in))]
    pub(crate) fn held(self, clock: u32) -> Option<Held>
        ensures { as_held result ≡ held_in (slot_from self.entry.octets.now) clock }
    {
        if !self.is_heard() {
            return None;
        }
        let t = self.telegram();
        Some(Held {
            expired: self.is_expired(),
            kind: telegrams::telegram_type(t),
            version: telegrams::data_version(t),
            age: self.held_age(clock),
        })
    }

    // The gap between its last two telegrams, 0 where none was heard.
    #[tactic(auto, unfolding(paper::specs::Store::gap))]
    pub(crate) fn gap(self) -> u32
        ensures { result ≡ gap (slot_from self.entry.octets.now) }
    {
        if self.was_heard() {
            return age(self.stamp(), self.previous());
        }
        0
    }

    // Not too old for a time limit. An expired one is, whatever its age, unless the limit is none (0).
    pub fn is_timely(self, clock: u32, limit: u64) -> bool
        ensures { result ≡ timely (slot_from self.entry.octets.now) clock limit }
    {
        (!self.is_expired() | (limit == 0)) & in_time(age(clock, self.stamp()), limit)
    }

    // Heard, and not within the longest time limit any more.
    #[tactic(auto, unfolding(paper::specs::Store::stale))]
    pub(crate) fn is_stale(self, clock: u32) -> bool
        ensures { result ≡ stale (slot_from self.entry.octets.now) clock }
    {
        (self.octets[0] == HEARD) & (LONGEST_LIMIT < age(clock, self.stamp()))
    }
}
