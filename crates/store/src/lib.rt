// The store: one slot a vehicle, taking a telegram into it, the age of what it holds, the gap between its last two telegrams, and the sweep that
// marks what is too old for any limit. The layout of a slot stands in this crate alone.
#![tactic(auto)]

ghost use Rattle.std.specs.Prelude.{◌≡◌, ◌<◌, ◌≤◌, length, take, drop};
ghost use Rattle.paper.specs.Store.{vehicles, telegram_octets, slot_octets, store_octets, is_store, is_vehicle, slot_start, slot_from, slot_to, taken, taking, gapping, swept_one, swept, sweeping};
ghost use Rattle.paper.specs.Octets.{over};
ghost use Rattle.paper.specs.Reading.{holding as held_of};
ghost use Rattle.refusals.specs.Outcome.{answer_of, outcome_of, Written};
ghost use Rattle.store.specs.Store.{held_answer, gap_answer, finding, telegram_tests, taking_tests};

use refusals::Refusal;

pub mod slots;

use slots::{EXPIRED, HEAD, HEARD, PREVIOUS, Slot};

pub const VEHICLES: usize = 63;

// The longest telegram.
pub const TELEGRAM: usize = 128;

const SLOT: usize = HEAD + TELEGRAM;

pub const STORE: usize = VEHICLES * SLOT;

// Type, version and age of what was last heard of a vehicle. What is expired was heard, and its age is 0: the clock may have come round since.
#[derive(Clone, Copy, Debug, PartialEq, Eq)]
pub struct Held {
    pub expired: bool,
    // The paper's type.
    pub kind: usize,
    pub version: usize,
    pub age: u32,
}

pub fn is_store(store: &[u8]) -> bool
    ensures { result ≡ is_store store.now }
{
    store.len() == STORE
}

pub fn is_vehicle(vehicle: usize) -> bool
    ensures { result ≡ is_vehicle vehicle }
{
    (1 <= vehicle) & (vehicle <= VEHICLES)
}

// Inner: a vehicle's slot.
pub fn slot(store: &[u8], vehicle: usize) -> Slot<'_>
    requires { (length store.now ≡ store_octets) × (1 ≤ vehicle) × (vehicle ≤ vehicles) }
    ensures { result.octets.now ≡ take slot_octets (drop (slot_start vehicle) store.now) }
{
    let a = SLOT * (vehicle - 1);
    let e = a + SLOT;
    Slot {
        octets: &store[a..e],
    }
}

// Inner: the slot of a vehicle. Refused: 5 and 6.
#[tactic(auto, unfolding(crate::specs::Store::finding, paper::specs::Store::slot_of, paper::specs::Answer::refuse_if))]
pub fn find_slot(store: &[u8], vehicle: usize) -> Result<Slot<'_>, Refusal>
    ensures { answer_of (λ s. slot_from s.octets.now) result ≡ finding store.now vehicle }
{
    if !is_store(store) {
        return Err(Refusal::StoreLength);
    }
    if !is_vehicle(vehicle) {
        return Err(Refusal::Vehicle);
    }
    Ok(slot(store, vehicle))
}

// What a vehicle's slot says of its telegram at `clock`; none where nothing was heard. Refused: 5 and 6.
#[tactic(auto, unfolding(paper::specs::Reading::holding, crate::specs::Store::finding, paper::specs::Answer::refuse_if))]
pub fn holding(store: &[u8], clock: u32, vehicle: usize) -> Result<Option<Held>, Refusal>
    ensures { held_answer result ≡ held_of store.now clock vehicle }
{
    let slot = find_slot(store, vehicle)?;
    Ok(slot.held(clock))
}

// Stamp less previous stamp, in ms: the gap between the last two telegrams taken from a vehicle; after the first, its stamp. Refused: 5 and 6.
#[tactic(auto, unfolding(paper::specs::Store::gapping, crate::specs::Store::finding, paper::specs::Answer::refuse_if))]
pub fn gap(store: &[u8], vehicle: usize) -> Result<u32, Refusal>
    ensures { gap_answer result ≡ gapping store.now vehicle }
{
    let slot = find_slot(store, vehicle)?;
    Ok(slot.gap())
}

// The first of the refusals 7 to 10 that applies to a telegram.
#[tactic(auto, unfolding(crate::specs::Store::telegram_tests, paper::specs::Answer::refuse_if))]
fn telegram_tests(telegram: &[u8]) -> Result<(), Refusal>
    ensures { outcome_of result ≡ telegram_tests telegram.now }
{
    if telegram.len() < 2 {
        return Err(Refusal::TelegramShort);
    }
    if telegrams::application_type(telegram) != 1 {
        return Err(Refusal::ApplicationType);
    }
    let kind = telegrams::telegram_type(telegram);
    if !telegrams::is_type(kind) {
        return Err(Refusal::TelegramType);
    }
    if telegram.len() != telegrams::type_length(kind) {
        return Err(Refusal::TelegramLength);
    }
    Ok(())
}

// The first of the refusals 5 to 10 that applies to a telegram for a store of `octets` octets.
#[tactic(auto, unfolding(crate::specs::Store::taking_tests, paper::specs::Answer::refuse_if))]
fn taking_tests(octets: usize, vehicle: usize, telegram: &[u8]) -> Result<(), Refusal>
    ensures { outcome_of result ≡ taking_tests octets vehicle telegram.now }
{
    if octets != STORE {
        return Err(Refusal::StoreLength);
    }
    if !is_vehicle(vehicle) {
        return Err(Refusal::Vehicle);
    }
    telegram_tests(telegram)
}

// Inner: the whole slot, the octets behind a short telegram too.
#[tactic(auto, using(crate::proofs::Laws::five_runs))]
fn write_slot(store: &mut [u8], vehicle: usize, clock: u32, before: u32, telegram: &[u8])
    requires { (length store.old ≡ store_octets) × (1 ≤ vehicle) × (vehicle ≤ vehicles) × (length telegram.now ≤ telegram_octets) }
    ensures { store.new ≡ over store.old (slot_start vehicle) (slot_to clock before telegram.now) }
{
    let at = SLOT * (vehicle - 1);
    let n = telegram.len();
    store[at] = HEARD;
    octets::write32(store, at + 1, clock);
    octets::write32(store, at + PREVIOUS, before);
    octets::copy_over(store, at + HEAD, telegram);
    octets::fill_zero(store, at + HEAD + n, TELEGRAM - n);
}

// Inner: the slot with the new telegram, and the stamp that it had behind the new one.
#[tactic(auto, unfolding(paper::specs::Store::taken, paper::specs::Store::slot_of))]
fn renew_slot(store: &mut [u8], vehicle: usize, clock: u32, telegram: &[u8])
    requires { (length store.old ≡ store_octets) × (1 ≤ vehicle) × (vehicle ≤ vehicles) × (length telegram.now ≤ telegram_octets) }
    ensures { store.new ≡ taken store.old vehicle clock telegram.now }
{
    let before = slot(store, vehicle).moved();
    write_slot(store, vehicle, clock, before, telegram);
}

// Takes a telegram of a vehicle, heard at `clock`, into the store. Refused: 5 to 10, and the store stays as it was.
#[tactic(auto, using(crate::proofs::Laws::tested, crate::proofs::Laws::tested_takes, paper::proofs::StoreLaws::type_short))]
pub fn take(store: &mut [u8], vehicle: usize, clock: u32, telegram: &[u8]) -> Result<(), Refusal>
    ensures { Written (taking store.old vehicle clock telegram.now) store.old result store.new }
{
    taking_tests(store.len(), vehicle, telegram)?;
    renew_slot(store, vehicle, clock, telegram);
    Ok(())
}

// Inner: one vehicle's slot.
#[tactic(auto, unfolding(paper::specs::Store::swept_one, paper::specs::Store::slot_of))]
fn sweep_slot(store: &mut [u8], vehicle: usize, clock: u32)
    requires { (length store.old ≡ store_octets) × (1 ≤ vehicle) × (vehicle ≤ vehicles) }
    ensures { store.new ≡ swept_one store.old clock vehicle }
{
    let at = SLOT * (vehicle - 1);
    if slot(store, vehicle).is_stale(clock) {
        store[at] = EXPIRED;
    }
}

// Inner: every vehicle's slot.
#[tactic(auto, unfolding(paper::specs::Store::swept_to))]
fn sweep_slots(store: &mut [u8], clock: u32)
    requires { length store.old ≡ store_octets }
    ensures { store.new ≡ swept store.old clock }
{
    for n in 0..VEHICLES {
        sweep_slot(store, n + 1, clock);
    }
}

// Marks every slot as expired that was heard and is older, at `clock`, than any time limit allows. Refused: 5, and the store stays as it was.
#[tactic(auto, unfolding(paper::specs::Store::sweeping, paper::specs::Answer::refuse_if))]
pub fn sweep(store: &mut [u8], clock: u32) -> Result<(), Refusal>
    ensures { Written (sweeping store.old clock) store.old result store.new }
{
    if !is_store(store) {
        return Err(Refusal::StoreLength);
    }
    sweep_slots(store, clock);
    Ok(())
}
