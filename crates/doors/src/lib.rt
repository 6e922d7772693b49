// The doors summary for the driver's desk, a product of its own above the library: it calls the library through its door alone, and is proved from
// what the door's calls promise. What has a `requires` is inner.
#![tactic(auto)]

ghost use Rattle.std.specs.Prelude.{◌≡◌, map, ◌≤◌, ◌<◌, length};
ghost use Rattle.std.specs.Int.Count.{ones};
ghost use Rattle.paper.specs.Answer.{gives};
ghost use Rattle.paper.specs.SignalList.{judge as judging, list_of};
ghost use Rattle.paper.specs.Store.{store_octets};
ghost use Rattle.paper.specs.Reading.{reading_at};
ghost use Rattle.paper.specs.Doors.{side_of, doors_by, doors};
ghost use Rattle.lists.specs.Judged.{counts_of};
ghost use Rattle.train.specs.Marks.{vehicle_of};
ghost use Rattle.doors.specs.Doors.{in_set, door_answer, door_on, state_as, said_by, state_by, side_as, train_summary, summary_answer};

use gateway::{Counts, Refusal};

#[derive(Clone, Copy, Debug, PartialEq, Eq)]
pub enum State {
    Locked,
    Open,
    Unknown,
}

// What is said of one side, and which vehicles kept it from saying locked: bit v of the set is vehicle v, and size counts them.
#[derive(Clone, Copy, Debug, PartialEq, Eq)]
pub struct Side {
    pub state: State,
    pub kept: u64,
    pub size: u32,
}

#[derive(Clone, Copy, Debug, PartialEq, Eq)]
pub struct Doors {
    pub left: Side,
    pub right: Side,
}

// The bit addresses of octet 20 bit 4 and bit 5.
const LEFT: usize = 156;

const RIGHT: usize = 157;

// The number of the common signal of one bit at this place.
fn door_at(list: &[u8], form: u8, n: Counts, place: usize) -> Option<usize>
    requires { judging form list.now ≡ gives (counts_of n) }
    ensures { door_answer result ≡ door_on (list_of list.now (counts_of n)) place }
{
    let Ok(k) = gateway::find_signal(list, form, 0, place) else {
        return None;
    };
    let Ok(entry) = gateway::signal_entry(list, form, k) else {
        return None;
    };
    if entry.signal.width == 1 {
        Some(k)
    } else {
        None
    }
}

// What one vehicle says of a side: locked where it is live and 1, open where it is live and 0.
fn vehicle_says(
    list: &[u8],
    form: u8,
    n: Counts,
    store: &[u8],
    clock: u32,
    v: usize,
    k: usize,
) -> State
    requires { (judging form list.now ≡ gives (counts_of n)) × (length store.now ≡ store_octets) × (1 ≤ v) × (v ≤ 63) × (k < n.signals) }
    ensures { state_as result ≡ said_by (reading_at (list_of list.now (counts_of n)) store.now clock v k) }
{
    match gateway::read(list, form, store, clock, v, k) {
        Ok(r) if r.reason.is_live() => match r.value {
            1 => State::Locked,
            0 => State::Open,
            _ => State::Unknown,
        },
        _ => State::Unknown,
    }
}

// One side over those of the vehicles 1 to `last` that are in the set, by signal k of each.
fn side_of(
    list: &[u8],
    form: u8,
    n: Counts,
    store: &[u8],
    clock: u32,
    last: usize,
    set: u64,
    k: usize,
) -> Side
    requires { (judging form list.now ≡ gives (counts_of n)) × (length store.now ≡ store_octets) × (last ≤ 63) × (k < n.signals) }
    ensures { side_as result ≡ side_of (in_set set) (λ v. reading_at (list_of list.now (counts_of n)) store.now clock v k) last }
{
    let mut kept = 0u64;
    let mut any = false;
    let mut v = 0;
    // While: a `for` joins the three states before its step, and then the proof did not close.
    while v < last {
        v += 1;
        if (set >> v) % 2 == 1 {
            let state = vehicle_says(list, form, n, store, clock, v, k);
            match state {
                State::Locked => {}
                State::Open => {
                    kept += 1u64 << v;
                    any = true;
                }
                State::Unknown => {
                    kept += 1u64 << v;
                }
            }
        }
    }
    told(kept, any)
}

// A side by the set of those that kept it from locked, and whether one is open.
fn told(kept: u64, any: bool) -> Side
    ensures { (result.kept ≡ kept) × (result.size ≡ ones kept) × (state_as result.state ≡ state_by kept any) }
{
    let size = u64::count_ones(kept);
    if kept == 0 {
        return Side {
            state: State::Locked,
            kept,
            size,
        };
    }
    let state = if any { State::Open } else { State::Unknown };
    Side { state, kept, size }
}

// Behind 35: the train and the address, 17 to 20, then both sides by the door signals l and r.
fn by_train(
    list: &[u8],
    form: u8,
    n: Counts,
    store: &[u8],
    clock: u32,
    marks: &[u8],
    address: u64,
    l: usize,
    r: usize,
) -> Result<Doors, Refusal>
    requires { (judging form list.now ≡ gives (counts_of n)) × (length store.now ≡ store_octets) × (l < n.signals) × (r < n.signals) }
    ensures { summary_answer result ≡ train_summary (list_of list.now (counts_of n)) store.now clock (map vehicle_of marks.now) address l r }
{
    let m = gateway::resolve(marks, address)?;
    let left = side_of(list, form, n, store, clock, marks.len(), m.set, l);
    let right = side_of(list, form, n, store, clock, marks.len(), m.set, r);
    Ok(Doors { left, right })
}

// Behind 1 to 4: the store, 5, and the two door signals, 35.
fn by_list(
    list: &[u8],
    form: u8,
    n: Counts,
    store: &[u8],
    clock: u32,
    marks: &[u8],
    address: u64,
) -> Result<Doors, Refusal>
    requires { judging form list.now ≡ gives (counts_of n) }
    ensures { summary_answer result ≡ doors_by store.now clock (map vehicle_of marks.now) address (list_of list.now (counts_of n)) }
{
    gateway::gap(store, 1)?;
    let Some(left) = door_at(list, form, n, LEFT) else {
        return Err(Refusal::DoorMissing);
    };
    let Some(right) = door_at(list, form, n, RIGHT) else {
        return Err(Refusal::DoorMissing);
    };
    by_train(list, form, n, store, clock, marks, address, left, right)
}

// Each side locked, open or not known, of the vehicles that meet the address, 66 being all, and who kept it from locked; vehicle 1 is the first of the marks.
// Refused: 1-4, 5, 35 where the list does not have both door signals, 17 to 20.
pub fn summary(
    list: &[u8],
    form: u8,
    store: &[u8],
    clock: u32,
    marks: &[u8],
    address: u64,
) -> Result<Doors, Refusal>
    ensures { summary_answer result ≡ doors form list.now store.now clock (map vehicle_of marks.now) address }
{
    let n = gateway::judge(list, form)?;
    by_list(list, form, n, store, clock, marks, address)
}
