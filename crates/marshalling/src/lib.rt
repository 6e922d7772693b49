// Marshalling routed signals into vehicle bus data. Every test comes before the first write.
#![tactic(auto)]

ghost use Rattle.std.specs.Prelude.{◌≡◌, ◌+◌, ◌^◌, ◌≤◌, ◌<◌, length};
ghost use Rattle.paper.specs.First.{some};
ghost use Rattle.paper.specs.SignalList.{route_end};
ghost use Rattle.paper.specs.Store.{store_octets};
ghost use Rattle.paper.specs.Marshalling.{marshalling};
ghost use Rattle.lists.specs.Listed.{list_as};
ghost use Rattle.known.specs.Known.{Entries};
ghost use Rattle.marshalling.specs.Marshalling.{is_short, Indexed, Served, RouteRead, RouteWritten, RoutesWritten, Delivered, marshalling_under};

use known::Span;
use lists::AcceptedList;
use reading::Reading;
use refusals::Refusal;

// What a route reads, and its field.
#[derive(Clone, Copy, Debug, PartialEq, Eq)]
pub struct RouteReading {
    pub start: usize,
    pub width: usize,
    pub reading: Reading,
}

// Inner: where the field of route r ends.
pub fn route_end(list: &AcceptedList, r: usize) -> usize
    requires { r < list.now.counts.routes }
    ensures is { result ≡ route_end (list_as list.now).signal ((list_as list.now).route r) }
    ensures most { result ≤ 2048 }
{
    let t = list.route(r);
    t.start + list.width(t.signal)
}

// Whether the field of route r ends past so many octets. Rounded up to octets, since 8 times a length may not fit.
#[tactic(auto, using(crate::proofs::Laws::too_few))]
fn is_short(list: &AcceptedList, octets: usize, r: usize) -> bool
    requires { r < list.now.counts.routes }
    ensures { result ≡ is_short (list_as list.now) octets r }
{
    octets < route_end(list, r).div_ceil(8)
}

// Inner: asked before anything is written. Each route starts at or past the end of the one before, so the last one ends last.
pub fn some_short(list: &AcceptedList, octets: usize) -> bool
    ensures { result ≡ some (is_short (list_as list.now) octets) list.now.counts.routes }
{
    let routes = list.counts.routes;
    routes != 0 && is_short(list, octets, routes - 1)
}

// Inner: where the code entries of each signal start, as routes go by their destinations and not by their signals.
pub fn index(list: &AcceptedList, first: &mut [u16])
    requires { length first.old ≡ 257 }
    ensures { Indexed (list_as list.now) first.new }
{
    let mut e = 0;
    for k in 0..=list.counts.signals {
        e = known::reach(list, e, k);
        first[k] = e as u16;
    }
}

// Inner: the code entries of signal k.
pub fn entries_at(list: &AcceptedList, first: &[u16], k: usize) -> Span
    requires { (Indexed (list_as list.now) first.now) × (k < list.now.counts.signals) }
    ensures { Entries (list_as list.now) k result }
{
    let from = usize::from(first[k]);
    let to = usize::from(first[k + 1]);
    Span { from, to }
}

// Inner: what route r reads.
pub fn read_route(
    list: &AcceptedList,
    first: &[u16],
    store: &[u8],
    clock: u32,
    r: usize,
) -> RouteReading
    requires { (Indexed (list_as list.now) first.now) × (length store.now ≡ store_octets) × (r < list.now.counts.routes) }
    ensures reads { RouteRead (list_as list.now) store.now clock r result }
    ensures fits { (1 ≤ result.width) × (result.width ≤ 64) × (result.start + result.width ≤ 2048) × (result.reading.value < 2 ^ result.width) }
{
    let t = list.route(r);
    let own = entries_at(list, first, t.signal);
    let slot = store::slot(store, t.vehicle);
    let reading = reading::read_slot(list, slot, clock, t.signal, own);
    RouteReading {
        start: t.start,
        width: list.width(t.signal),
        reading,
    }
}

// Writes what route r reads into its field: how many live routes that adds.
fn write_route(
    list: &AcceptedList,
    first: &[u16],
    store: &[u8],
    clock: u32,
    bus: &mut [u8],
    r: usize,
) -> usize
    requires served { (Served (list_as list.now) store.now (length bus.old)) × (r < list.now.counts.routes) }
    requires indexed { Indexed (list_as list.now) first.now }
    ensures { RouteWritten (list_as list.now) store.now clock bus.old r result bus.new }
{
    let route = read_route(list, first, store, clock, r);
    octets::write_field(bus, route.start, route.width, route.reading.value);
    usize::from(route.reading.reason.is_live())
}

// Writes what every route reads, and counts the live ones.
fn write_routes(
    list: &AcceptedList,
    first: &[u16],
    store: &[u8],
    clock: u32,
    bus: &mut [u8],
) -> usize
    requires served { Served (list_as list.now) store.now (length bus.old) }
    requires indexed { Indexed (list_as list.now) first.now }
    ensures { RoutesWritten (list_as list.now) store.now clock bus.old list.now.counts.routes result bus.new }
{
    let mut lives = 0;
    for r in 0..list.counts.routes {
        lives += write_route(list, first, store, clock, bus, r);
    }
    lives
}

// Marshalling under an accepted list: how many routes had reason 0 or 1.
#[tactic(auto, unfolding(crate::specs::Marshalling::marshalling_under, paper::specs::Answer::refuse_if))]
fn marshal_under(
    list: &AcceptedList,
    store: &[u8],
    clock: u32,
    bus: &mut [u8],
) -> Result<usize, Refusal>
    ensures { Delivered (marshalling_under (list_as list.now) store.now clock bus.old) bus.old result bus.new }
{
    if !store::is_store(store) {
        return Err(Refusal::StoreLength);
    }
    if some_short(list, bus.len()) {
        return Err(Refusal::DataShort);
    }
    let mut first = [0u16; 257];
    index(list, &mut first);
    Ok(write_routes(list, &first, store, clock, bus))
}

// Writes each route's value at `clock` into its field of `bus`: how many routes had reason 0 or 1. Refused: 1 to 4, then 5 and 12, and `bus` stays as it was.
pub fn marshal(
    list: &[u8],
    form: u8,
    store: &[u8],
    clock: u32,
    bus: &mut [u8],
) -> Result<usize, Refusal>
    ensures { Delivered (marshalling form list.now store.now clock bus.old) bus.old result bus.new }
{
    let list = AcceptedList::judged(list, form)?;
    marshal_under(&list, store, clock, bus)
}
