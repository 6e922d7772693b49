// An old gateway in the middle: what was read under the list is composed anew under it.
#![tactic(auto)]

ghost use Rattle.std.specs.Prelude.{◌≡◌, ◌≤◌, ◌<◌, length, leb};
ghost use Rattle.paper.specs.Store.{vehicles, telegram_octets, store_octets, slot_of, slot_from};
ghost use Rattle.paper.specs.Relaying.{relay_type, relaying_by, relaying};
ghost use Rattle.refusals.specs.Outcome.{Written};
ghost use Rattle.lists.specs.Listed.{list_as};
ghost use Rattle.relaying.specs.Relaying.{state_with, Fresh, Noted, Stated, mark_by, MarkedBy, marks_from, relaying_slot};

use lists::AcceptedList;
use refusals::Refusal;
use store::slots::Slot;

// What is known of a check so far: nothing is under it, all that is was read live, or something was not.
#[derive(Clone, Copy, Debug, PartialEq, Eq)]
enum State {
    Nothing,
    Live,
    NotLive,
}

impl State {
    // With one signal more under it, read live or not.
    fn with(self, live: bool) -> State
        ensures { result ≡ state_with self live }
    {
        if live & (self != State::NotLive) {
            State::Live
        } else {
            State::NotLive
        }
    }
}

// Puts a signal under its check, if the type carries it.
#[tactic(auto, using(crate::proofs::Laws::has_check))]
fn note_signal(list: &AcceptedList, kind: usize, live: bool, k: usize, states: &mut [State])
    requires { (k < list.now.counts.signals) × (length states.old ≡ list.now.counts.checks) }
    ensures { Noted (list_as list.now) kind live k states.old states.new }
{
    let s = list.signal(k);
    if s.check == 0 {
        return;
    }
    if !telegrams::is_carried(kind, s.kind) {
        return;
    }
    let j = s.check - 1;
    states[j] = states[j].with(live);
}

// Every signal; one that was read for the reason 0 or 1 is live.
fn note_signals(list: &AcceptedList, kind: usize, reasons: &[u8], states: &mut [State])
    requires reasons_len { length reasons.now ≡ list.now.counts.signals }
    requires states_len { (length states.old ≡ list.now.counts.checks) × (Fresh states.old) }
    ensures { Stated (list_as list.now) kind reasons.now list.now.counts.signals states.new }
{
    for k in 0..list.counts.signals {
        note_signal(list, kind, reasons[k] <= 1, k, states);
    }
}

// The mark of check j as it was read, where all under it was live; else error.
fn mark_by(list: &AcceptedList, telegram: &[u8], state: State, j: usize) -> u8
    requires { (j < list.now.counts.checks) × (length telegram.now ≡ telegram_octets) }
    ensures { result ≡ mark_by (list_as list.now) telegram.now state j }
{
    if state != State::Live {
        return 0;
    }
    (octets::read_pair(telegram, list.check(j)) % 4) as u8
}

// Every check.
#[tactic(auto, using(paper::proofs::LoopLaws::filled_all))]
fn write_marks(list: &AcceptedList, telegram: &[u8], states: &[State], marks: &mut [u8])
    requires telegram_len { length telegram.now ≡ telegram_octets }
    requires states_len { (length states.now ≡ list.now.counts.checks) × (length marks.old ≡ list.now.counts.checks) }
    ensures { MarkedBy (list_as list.now) telegram.now states.now marks.new }
{
    for j in 0..list.counts.checks {
        marks[j] = mark_by(list, telegram, states[j], j);
    }
}

// The type of what was heard, 0 where nothing was.
#[tactic(auto, unfolding(paper::specs::Relaying::relay_type))]
fn type_of(slot: Slot) -> usize
    ensures { result ≡ relay_type (slot_from slot.entry.octets.now) }
{
    if !slot.is_heard() {
        return 0;
    }
    telegrams::telegram_type(slot.telegram())
}

// The marks of a slot, from the reasons for which its signals were read.
fn relay_marks(list: &AcceptedList, slot: Slot, reasons: &[u8], marks: &mut [u8])
    requires { (length reasons.now ≡ list.now.counts.signals) × (length marks.old ≡ list.now.counts.checks) }
    ensures { marks.new ≡ marks_from (list_as list.now) (slot_from slot.entry.octets.now) reasons.now }
{
    let mut room = [State::Nothing; 64];
    let checks = list.counts.checks;
    let states = &mut room[..checks];
    note_signals(list, type_of(slot), reasons, states);
    write_marks(list, slot.telegram(), states, marks);
}

// What a vehicle's slot holds, composed anew, with room for a value and a reason of each signal and a mark of each check.
fn relay_with(
    list: &AcceptedList,
    store: &[u8],
    clock: u32,
    vehicle: usize,
    values: &mut [u64],
    reasons: &mut [u8],
    marks: &mut [u8],
    out: &mut [u8],
) -> Result<(), Refusal>
    requires room { (length values.old ≡ list.now.counts.signals) × (length reasons.old ≡ list.now.counts.signals) × (length marks.old ≡ list.now.counts.checks) }
    requires store_len { (length store.now ≡ store_octets) × (1 ≤ vehicle) × (vehicle ≤ vehicles) }
    ensures { Written (relaying_slot (list_as list.now) (slot_of store.now vehicle) clock (length out.old)) out.old result out.new }
{
    reading::read_each(list, store, clock, vehicle, values, reasons);
    let slot = store::slot(store, vehicle);
    relay_marks(list, slot, reasons, marks);
    composing::compose_under(list, type_of(slot), values, marks, out)
}

// The same with that room.
fn relay_slot(
    list: &AcceptedList,
    store: &[u8],
    clock: u32,
    vehicle: usize,
    out: &mut [u8],
) -> Result<(), Refusal>
    requires { (length store.now ≡ store_octets) × (1 ≤ vehicle) × (vehicle ≤ vehicles) }
    ensures { Written (relaying_slot (list_as list.now) (slot_of store.now vehicle) clock (length out.old)) out.old result out.new }
{
    let mut values = [0u64; 256];
    let mut reasons = [0u8; 256];
    let mut marks = [0u8; 64];
    let signals = list.counts.signals;
    let checks = list.counts.checks;
    relay_with(
        list,
        store,
        clock,
        vehicle,
        &mut values[..signals],
        &mut reasons[..signals],
        &mut marks[..checks],
        out,
    )
}

// Relaying under an accepted list.
#[tactic(auto, unfolding(paper::specs::Answer::refuse_if))]
fn relay_under(
    list: &AcceptedList,
    store: &[u8],
    clock: u32,
    vehicle: usize,
    out: &mut [u8],
) -> Result<(), Refusal>
    ensures { Written (relaying_by store.now clock vehicle (length out.old) (list_as list.now)) out.old result out.new }
{
    if !store::is_store(store) {
        return Err(Refusal::StoreLength);
    }
    if !store::is_vehicle(vehicle) {
        return Err(Refusal::Vehicle);
    }
    relay_slot(list, store, clock, vehicle, out)
}

// Reads every signal of a vehicle at `clock` and composes the telegram of its type anew into `out`, with error for each check under which a signal was
// not live, or which has none under it. Refused: 1 to 4, then 5 and 6, 9 where nothing was heard, 15 and 16, and `out` stays as it was.
#[tactic(auto, using(composing::proofs::Laws::written_list, composing::proofs::Laws::written_listed), unfolding(paper::specs::Relaying::relaying))]
pub fn relay(
    list: &[u8],
    form: u8,
    store: &[u8],
    clock: u32,
    vehicle: usize,
    out: &mut [u8],
) -> Result<(), Refusal>
    ensures { Written (relaying form list.now store.now clock vehicle (length out.old)) out.old result out.new }
{
    let list = AcceptedList::judged(list, form)?;
    relay_under(&list, store, clock, vehicle, out)
}
