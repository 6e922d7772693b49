// Demands 2 and 3 as a function: what is composed under one list, taken from a vehicle, swept, and read under another. And C-22's two: telegrams taken
// one after the other, and a marshalling made twice. And C-24's: what a gateway in the middle composes anew, taken and read by the last.
#![tactic(auto)]

ghost use Rattle.demands.specs.Orders.{TakenBoth, MarshalledTwice};
ghost use Rattle.demands.specs.PassedOn.{PassedOn};
ghost use Rattle.demands.specs.Told.{Told};

use reading::Reading;
use refusals::Refusal;

// What each of the four calls answers.
#[derive(Clone, Copy, Debug, PartialEq, Eq)]
pub struct Answers {
    pub composed: Result<(), Refusal>,
    pub taken: Result<(), Refusal>,
    pub swept: Result<(), Refusal>,
    pub read: Result<Reading, Refusal>,
}

// The telegram is left in `out` and in the vehicle's slot. Taken at `stamp`, swept at `sweep`, read at `clock`.
pub fn told(
    writer: &[u8],
    form: u8,
    kind: usize,
    values: &[u64],
    marks: &[u8],
    out: &mut [u8],
    store: &mut [u8],
    vehicle: usize,
    stamp: u32,
    sweep: u32,
    reader: &[u8],
    other: u8,
    clock: u32,
    signal: usize,
) -> Answers
    ensures { Told form writer.now kind values.now marks.now out.old store.old vehicle stamp sweep other reader.now clock signal out.new store.new result }
{
    let composed = composing::compose(writer, form, kind, values, marks, out);
    let taken = store::take(store, vehicle, stamp, out);
    let swept = store::sweep(store, sweep);
    let read = reading::read(reader, other, store, clock, vehicle, signal);
    Answers {
        composed,
        taken,
        swept,
        read,
    }
}

// What two takings answer, in the order in which they are made.
#[derive(Clone, Copy, Debug, PartialEq, Eq)]
pub struct Both {
    pub one: Result<(), Refusal>,
    pub two: Result<(), Refusal>,
}

pub fn take_both(
    store: &mut [u8],
    vehicle: usize,
    clock: u32,
    telegram: &[u8],
    other: usize,
    later: u32,
    next: &[u8],
) -> Both
    ensures { TakenBoth store.old vehicle clock telegram.now other later next.now store.new result }
{
    let one = store::take(store, vehicle, clock, telegram);
    let two = store::take(store, other, later, next);
    Both { one, two }
}

// What two marshallings answer that are asked the same.
#[derive(Clone, Copy, Debug, PartialEq, Eq)]
pub struct Twice {
    pub once: Result<usize, Refusal>,
    pub again: Result<usize, Refusal>,
}

pub fn marshal_twice(list: &[u8], form: u8, store: &[u8], clock: u32, bus: &mut [u8]) -> Twice
    ensures { MarshalledTwice form list.now store.now clock bus.old bus.new result }
{
    let once = marshalling::marshal(list, form, store, clock, bus);
    let again = marshalling::marshal(list, form, store, clock, bus);
    Twice { once, again }
}

// What the gateway in the middle answers, and what its telegram is answered by the last reader.
#[derive(Clone, Copy, Debug, PartialEq, Eq)]
pub struct Passed {
    pub relayed: Result<(), Refusal>,
    pub taken: Result<(), Refusal>,
    pub read: Result<Reading, Refusal>,
}

// Relayed from the store `there` under the list `inner`, taken into the store `here`, and read under the list `outer`.
pub fn pass_on(
    inner: &[u8],
    form: u8,
    there: &[u8],
    clock: u32,
    vehicle: usize,
    out: &mut [u8],
    here: &mut [u8],
    sender: usize,
    stamp: u32,
    outer: &[u8],
    other: u8,
    later: u32,
    signal: usize,
) -> Passed
    ensures { PassedOn form inner.now there.now clock vehicle out.old here.old sender stamp other outer.now later signal out.new here.new result }
{
    let relayed = relaying::relay(inner, form, there, clock, vehicle, out);
    let taken = store::take(here, sender, stamp, out);
    let read = reading::read(outer, other, here, later, sender, signal);
    Passed {
        relayed,
        taken,
        read,
    }
}
