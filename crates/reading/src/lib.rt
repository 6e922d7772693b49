// Reading out of the store: a signal of a vehicle, every signal of it, and every signal of the vehicles from 1 on.
#![tactic(auto)]

ghost use Rattle.std.specs.Prelude.{◌≡◌, ◌*◌, ◌≤◌, ◌<◌, length, IfSome};
ghost use Rattle.paper.specs.First.{first_of};
ghost use Rattle.paper.specs.Store.{vehicles, telegram_octets, slot_octets, store_octets, slot_from};
ghost use Rattle.paper.specs.Reading.{mark_of, reading_of, reading};
ghost use Rattle.paper.specs.Readings.{readings_by, readings, train_by, train_readings};
ghost use Rattle.entries.specs.Entries.{signal_of};
ghost use Rattle.lists.specs.Listed.{list_as};
ghost use Rattle.known.specs.Known.{Entries};
ghost use Rattle.reading.specs.Reason.{reason_number, hindrance_number};
ghost use Rattle.reading.specs.Reading.{as_reading, read_answer, slot_tests, telegram_reason, telegram_reading, EachRead, TrainRead, ReadInto, reading_under};

use entries::Signal;
use known::Span;
use lists::AcceptedList;
use refusals::Refusal;
use store::slots::Slot;

mod reason;

pub use reason::Reason;

#[derive(Clone, Copy, Debug, PartialEq, Eq)]
pub struct Reading {
    pub value: u64,
    pub reason: Reason,
}

// The first of the reasons 2 to 5 that applies to a signal in a slot, if one does.
fn slot_reason(slot: Slot, clock: u32, s: Signal) -> Option<Reason>
    ensures some { IfSome result (λ r. 2 ≤ reason_number r) }
    ensures number { hindrance_number result ≡ first_of 2 (slot_tests (slot_from slot.entry.octets.now) clock (signal_of s)) 0 }
{
    if !slot.is_heard() {
        return Some(Reason::NeverHeard);
    }
    if !slot.is_timely(clock, s.limit) {
        return Some(Reason::TooOld);
    }
    let t = slot.telegram();
    if !telegrams::is_carried(telegrams::telegram_type(t), s.kind) {
        return Some(Reason::NotCarried);
    }
    if telegrams::data_version(t) < s.since {
        return Some(Reason::NewerThanTelegram);
    }
    None
}

// The mark over a signal; no check counts as ok.
#[tactic(auto, unfolding(paper::specs::Reading::mark_of))]
fn mark_in(list: &AcceptedList, s: Signal, telegram: &[u8]) -> usize
    requires { (s.check ≤ list.now.counts.checks) × (length telegram.now ≡ telegram_octets) }
    ensures { result ≡ mark_of (list_as list.now) (signal_of s) telegram.now }
{
    if s.check == 0 {
        return 1;
    }
    octets::read_field(telegram, list.place(s), 2) as usize
}

// The first of the reasons 6 to 8 that applies, else 0 or 1.
fn telegram_reason(mark: usize, known: bool) -> Reason
    ensures { reason_number result ≡ telegram_reason mark known }
{
    if mark == 0 {
        return Reason::MarkError;
    }
    if mark == 3 {
        return Reason::MarkUndefined;
    }
    if !known {
        return Reason::CodeUnknown;
    }
    if mark == 2 {
        return Reason::Forced;
    }
    Reason::Live
}

// Signal k, which is s, out of a telegram that can be read.
fn read_telegram(list: &AcceptedList, s: Signal, telegram: &[u8], k: usize, own: Span) -> Reading
    requires own_entries { (k < list.now.counts.signals) × (Entries (list_as list.now) k own) }
    requires s_value { (signal_of s ≡ (list_as list.now).signal k) × (length telegram.now ≡ telegram_octets) }
    ensures { as_reading result ≡ telegram_reading (list_as list.now) telegram.now k }
{
    let code = octets::read_field(telegram, s.start, s.width);
    let known = known::knows(list, k, own, code);
    let reason = telegram_reason(mark_in(list, s, telegram), known);
    let value = if reason.is_live() {
        code
    } else {
        s.replacement
    };
    Reading { value, reason }
}

// Inner: signal k out of a slot, where the signal's code entries are found already.
pub fn read_slot(list: &AcceptedList, slot: Slot, clock: u32, k: usize, own: Span) -> Reading
    requires { (k < list.now.counts.signals) × (Entries (list_as list.now) k own) }
    ensures { as_reading result ≡ reading_of (list_as list.now) (slot_from slot.entry.octets.now) clock k }
{
    let s = list.signal(k);
    if let Some(reason) = slot_reason(slot, clock, s) {
        return Reading {
            value: s.replacement,
            reason,
        };
    }
    read_telegram(list, s, slot.telegram(), k, own)
}

// Inner: every signal of a vehicle, its value and its reason; e is where the code entries of the next are looked for.
pub fn read_each(
    list: &AcceptedList,
    store: &[u8],
    clock: u32,
    vehicle: usize,
    values: &mut [u64],
    reasons: &mut [u8],
)
    requires room { (length values.old ≡ list.now.counts.signals) × (length reasons.old ≡ list.now.counts.signals) }
    requires store_len { (length store.now ≡ store_octets) × (1 ≤ vehicle) × (vehicle ≤ vehicles) }
    ensures { EachRead (list_as list.now) store.now clock vehicle values.new reasons.new }
{
    let slot = store::slot(store, vehicle);
    let mut e = 0;
    for k in 0..list.counts.signals {
        let own = known::entries_from(list, e, k);
        let r = read_slot(list, slot, clock, k, own);
        values[k] = r.value;
        reasons[k] = r.reason.number();
        e = own.to;
    }
}

// Every signal of the vehicles 1 to `last`, vehicle after vehicle.
fn read_vehicles(
    list: &AcceptedList,
    store: &[u8],
    clock: u32,
    last: usize,
    values: &mut [u64],
    reasons: &mut [u8],
)
    requires store_len { (length store.now ≡ store_octets) × (last ≤ vehicles) }
    requires values_len { (length values.old ≡ last * list.now.counts.signals) × (length reasons.old ≡ last * list.now.counts.signals) }
    ensures { TrainRead (list_as list.now) store.now clock last values.new reasons.new }
{
    for v in 0..last {
        let from = v * list.counts.signals;
        let to = from + list.counts.signals;
        read_each(
            list,
            store,
            clock,
            v + 1,
            &mut values[from..to],
            &mut reasons[from..to],
        );
    }
}

// Inner: a signal of a vehicle, with the refusals 5, 6 and 11.
#[tactic(auto, unfolding(crate::specs::Reading::reading_under, store::specs::Store::finding, paper::specs::Reading::reading_at, paper::specs::Answer::refuse_if))]
pub fn read_under(
    list: &AcceptedList,
    store: &[u8],
    clock: u32,
    vehicle: usize,
    signal: usize,
) -> Result<Reading, Refusal>
    ensures { read_answer result ≡ reading_under (list_as list.now) store.now clock vehicle signal }
{
    let slot = store::find_slot(store, vehicle)?;
    if list.counts.signals <= signal {
        return Err(Refusal::NoSuchSignal);
    }
    let own = known::entries_of(list, signal);
    Ok(read_slot(list, slot, clock, signal, own))
}

// Reads a signal of a vehicle at `clock`: its value and reason. Refused: 1 to 4, then 5, 6 and 11.
pub fn read(
    list: &[u8],
    form: u8,
    store: &[u8],
    clock: u32,
    vehicle: usize,
    signal: usize,
) -> Result<Reading, Refusal>
    ensures { read_answer result ≡ reading form list.now store.now clock vehicle signal }
{
    let list = AcceptedList::judged(list, form)?;
    read_under(&list, store, clock, vehicle, signal)
}

// Every signal of a vehicle, with the refusals 5, 6 and 13.
#[tactic(auto, unfolding(paper::specs::Answer::refuse_if))]
fn read_all_under(
    list: &AcceptedList,
    store: &[u8],
    clock: u32,
    vehicle: usize,
    values: &mut [u64],
    reasons: &mut [u8],
) -> Result<(), Refusal>
    ensures { ReadInto (readings_by store.now clock vehicle (length values.old) (length reasons.old) (list_as list.now)) values.old reasons.old result values.new reasons.new }
{
    if !store::is_store(store) {
        return Err(Refusal::StoreLength);
    }
    if !store::is_vehicle(vehicle) {
        return Err(Refusal::Vehicle);
    }
    let is_room = (values.len() == list.counts.signals) & (reasons.len() == list.counts.signals);
    if !is_room {
        return Err(Refusal::ValuesOrMarks);
    }
    read_each(list, store, clock, vehicle, values, reasons);
    Ok(())
}

// Reads every signal of a vehicle at `clock` into lent values and reasons, one per signal, each as `read` gives it. Refused: 1 to 4, then 5, 6, and 13
// where values or reasons are not one per signal, and both stay as they were.
pub fn read_all(
    list: &[u8],
    form: u8,
    store: &[u8],
    clock: u32,
    vehicle: usize,
    values: &mut [u64],
    reasons: &mut [u8],
) -> Result<(), Refusal>
    ensures { ReadInto (readings form list.now store.now clock vehicle (length values.old) (length reasons.old)) values.old reasons.old result values.new reasons.new }
{
    let list = AcceptedList::judged(list, form)?;
    read_all_under(&list, store, clock, vehicle, values, reasons)
}

// The same of the vehicles 1 to `last`.
#[tactic(auto, unfolding(paper::specs::Answer::refuse_if))]
fn read_train_under(
    list: &AcceptedList,
    store: &[u8],
    clock: u32,
    last: usize,
    values: &mut [u64],
    reasons: &mut [u8],
) -> Result<(), Refusal>
    ensures { ReadInto (train_by store.now clock last (length values.old) (length reasons.old) (list_as list.now)) values.old reasons.old result values.new reasons.new }
{
    if !store::is_store(store) {
        return Err(Refusal::StoreLength);
    }
    if !store::is_vehicle(last) {
        return Err(Refusal::Vehicle);
    }
    let many = last * list.counts.signals;
    let is_room = (values.len() == many) & (reasons.len() == many);
    if !is_room {
        return Err(Refusal::ValuesOrMarks);
    }
    read_vehicles(list, store, clock, last, values, reasons);
    Ok(())
}

// Reads every signal of the vehicles 1 to `last`, vehicle after vehicle, into values and reasons of `last` times as many as there are signals. Refused as
// `read_all` is, 6 where `last` is no vehicle.
pub fn read_train(
    list: &[u8],
    form: u8,
    store: &[u8],
    clock: u32,
    last: usize,
    values: &mut [u64],
    reasons: &mut [u8],
) -> Result<(), Refusal>
    ensures { ReadInto (train_readings form list.now store.now clock last (length values.old) (length reasons.old)) values.old reasons.old result values.new reasons.new }
{
    let list = AcceptedList::judged(list, form)?;
    read_train_under(&list, store, clock, last, values, reasons)
}
