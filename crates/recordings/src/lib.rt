// Checking a supplier's recording of marshalling, a step at a time. Nothing lent is written, nothing is copied, and the data may have any length.
// What has a `requires` is inner.
#![tactic(auto)]

ghost use Rattle.std.specs.Prelude.{◌≡◌, true, ◌+◌, ◌-◌, ◌*◌, ◌^◌, ◌<◌, ◌≤◌, length, eqb, IfSome};
ghost use Rattle.paper.specs.Octets.{bit, field};
ghost use Rattle.paper.specs.Store.{store_octets};
ghost use Rattle.paper.specs.Marshalling.{marshalled};
ghost use Rattle.paper.specs.Recordings.{lies_in, located, finding, same_octets, follows, checking_by, checking};
ghost use Rattle.octets.specs.Fields.{Within};
ghost use Rattle.lists.specs.Listed.{list_as};
ghost use Rattle.marshalling.specs.Marshalling.{Indexed, Served};
ghost use Rattle.recordings.specs.Recordings.{Agrees, FirstOff, FirstSpot, Same, Alike, Digit, Written, place_in, finding_of, checked_answer, Low, step_of};

use lists::AcceptedList;
use reading::Reason;
use refusals::Refusal;

// How many steps a recording has at most.
pub const MOST_STEPS: usize = 1000;

// The route in which a wrong bit lies, by its number, and the reason of what it reads.
#[derive(Clone, Copy, Debug, PartialEq, Eq)]
pub struct Routed {
    pub route: usize,
    pub reason: Reason,
}

// The first wrong bit: its octet, counted from 0, its place in it, 0 to 7, and the route in which it lies, if it lies in one.
#[derive(Clone, Copy, Debug, PartialEq, Eq)]
pub struct WrongBit {
    pub octet: usize,
    pub bit: usize,
    pub route: Option<Routed>,
}

// A bit by its octet and its place in it, as 8 times a length may not fit.
#[derive(Clone, Copy)]
struct Spot {
    octet: usize,
    bit: usize,
}

impl Spot {
    // The bit at address a.
    fn at(a: usize) -> Spot
        ensures { (8 * result.octet + result.bit ≡ a) × (result.bit < 8) }
    {
        Spot {
            octet: a / 8,
            bit: a % 8,
        }
    }
}

// Bit a as a field of one bit.
#[tactic(auto, using(crate::proofs::Laws::field_one))]
fn bit_at(s: &[u8], a: usize) -> u64
    requires { a < 8 * length s.now }
    ensures { result ≡ bit s.now a }
{
    octets::read_field(s, a, 1)
}

// The first bit from `from` to before `to` at which the two differ.
fn differing_bit(x: &[u8], y: &[u8], from: usize, to: usize) -> Option<usize>
    requires { (to ≤ 8 * length x.now) × (to ≤ 8 * length y.now) }
    ensures { FirstOff (Same x.now y.now) from to result }
{
    for a in from..to {
        if bit_at(x, a) != bit_at(y, a) {
            return Some(a);
        }
    }
    None
}

// The same of at most 64 bits, which agree as one number or are gone through.
#[tactic(auto, using(crate::proofs::Laws::fields_agree))]
fn differing_field(x: &[u8], y: &[u8], from: usize, to: usize) -> Option<usize>
    requires { (from < to) × (to ≤ from + 64) × (to ≤ 8 * length x.now) × (to ≤ 8 * length y.now) }
    ensures { FirstOff (Same x.now y.now) from to result }
{
    let width = to - from;
    if octets::read_field(x, from, width) == octets::read_field(y, from, width) {
        return None;
    }
    differing_bit(x, y, from, to)
}

// The same of any number of bits.
fn first_differing(x: &[u8], y: &[u8], from: usize, to: usize) -> Option<usize>
    requires { (to ≤ 8 * length x.now) × (to ≤ 8 * length y.now) }
    ensures { FirstOff (Same x.now y.now) from to result }
{
    let mut a = from;
    // While: by 64 bits.
    while a < to {
        let end = a + (to - a).min(64);
        if let Some(at) = differing_field(x, y, a, end) {
            return Some(at);
        }
        a = end;
    }
    None
}

// The first bit of the field that is not the number's.
fn first_off(s: &[u8], start: usize, width: usize, value: u64) -> Option<usize>
    requires { (Within s.now start width) × (start + width ≤ 2048) }
    ensures { FirstOff (Digit s.now start width value) start (start + width) result }
{
    let end = start + width;
    for a in start..end {
        if bit_at(s, a) != (value >> (end - 1 - a)) % 2 {
            return Some(a);
        }
    }
    None
}

// The first bit of octet q at which the two differ.
#[tactic(auto, using(crate::proofs::Laws::octet_part))]
fn octet_first(x: &[u8], y: &[u8], q: usize) -> Option<usize>
    requires { (q < length x.now) × (q < length y.now) }
    ensures { FirstOff (λ b. Same x.now y.now (8 * q + b)) 0 8 result }
{
    if x[q] == y[q] {
        return None;
    }
    differing_bit(&x[q..], &y[q..], 0, 8)
}

// Whether the eight octets from q on are the same as one number.
#[tactic(auto, using(crate::proofs::Laws::eight_field))]
fn same_eight(x: &[u8], y: &[u8], q: usize) -> bool
    requires { (q + 8 ≤ length x.now) × (q + 8 ≤ length y.now) }
    ensures { result ≡ eqb (field x.now (8 * q) 64) (field y.now (8 * q) 64) }
{
    octets::read_field(&x[q..], 0, 64) == octets::read_field(&y[q..], 0, 64)
}

// An octet such that all from `from` to before it are the same, found by eights. Both lengths are asked, so that each eight is read at once.
fn skip_same(x: &[u8], y: &[u8], from: usize) -> usize
    requires { (from ≤ length x.now) × (length x.now ≡ length y.now) }
    ensures within { (from ≤ result) × (result ≤ length x.now) }
    ensures alike { Agrees (Alike x.now y.now) from result }
{
    let mut q = from;
    // While: by eights.
    while (8 <= x.len() - q) & (8 <= y.len() - q) {
        if !same_eight(x, y, q) {
            return q;
        }
        q += 8;
    }
    q
}

// The first bit at which the two differ from octet `from` on.
#[tactic(auto, using(crate::proofs::Laws::alike_bits))]
fn octets_from(x: &[u8], y: &[u8], from: usize) -> Option<Spot>
    requires { (from ≤ length x.now) × (length x.now ≡ length y.now) }
    ensures { FirstSpot (Same x.now y.now) (8 * from) (8 * length x.now) result }
{
    let passed = skip_same(x, y, from);
    for q in passed..x.len() {
        if let Some(bit) = octet_first(x, y, q) {
            return Some(Spot { octet: q, bit });
        }
    }
    None
}

// From bit `pos` on: the rest of its octet, then by octets.
fn bits_from(x: &[u8], y: &[u8], pos: usize) -> Option<Spot>
    requires { (pos ≤ 2048) × (pos ≤ 8 * length x.now) × (length x.now ≡ length y.now) }
    ensures { FirstSpot (Same x.now y.now) pos (8 * length x.now) result }
{
    let octet = pos.div_ceil(8);
    if let Some(a) = first_differing(x, y, pos, 8 * octet) {
        return Some(Spot::at(a));
    }
    octets_from(x, y, octet)
}

// Whether the gap from `pos` to a field is as it was and the field holds the number, read as one. `false` also where they are wider than 64 bits: the bits
// are then gone through.
fn holds(before: &[u8], after: &[u8], pos: usize, start: usize, width: usize, value: u64) -> bool
    requires { (pos ≤ start) × (Within after.now start width) × (start + width ≤ 2048) × (length after.now ≡ length before.now) × (value < 2 ^ width) }
    ensures { result ≡ true → (field after.now pos (start - pos) ≡ field before.now pos (start - pos)) × (field after.now start width ≡ value) }
{
    let gap = start - pos;
    if gap == 0 {
        return octets::read_field(after, start, width) == value;
    }
    if 64 < gap + width {
        return false;
    }
    let kept = octets::read_field(before, pos, gap);
    octets::read_field(after, pos, gap + width) == (kept << width) + value
}

// The first wrong bit from `pos` to the end of a field that is to hold the number: the gap, in which the data stay as they were, then the field.
#[tactic(auto, using(crate::proofs::Laws::field_whole))]
fn field_first(
    before: &[u8],
    after: &[u8],
    pos: usize,
    start: usize,
    width: usize,
    value: u64,
) -> Option<usize>
    requires { (pos ≤ start) × (Within after.now start width) × (start + width ≤ 2048) × (length after.now ≡ length before.now) × (value < 2 ^ width) }
    ensures { FirstOff (Written before.now after.now start width value) pos (start + width) result }
{
    if holds(before, after, pos, start, width, value) {
        return None;
    }
    if let Some(a) = first_differing(after, before, pos, start) {
        return Some(a);
    }
    first_off(after, start, width, value)
}

// The first bit of `after` that is not what marshalling into `before` gives: route by route, then what is past the last.
fn first_wrong(
    list: &AcceptedList,
    first: &[u16],
    store: &[u8],
    clock: u32,
    before: &[u8],
    after: &[u8],
) -> Option<Spot>
    requires served { (Served (list_as list.now) store.now (length before.now)) × (length after.now ≡ length before.now) }
    requires indexed { Indexed (list_as list.now) first.now }
    ensures { FirstSpot (Same after.now (marshalled (list_as list.now) store.now clock before.now list.now.counts.routes)) 0 (8 * length after.now) result }
{
    let mut pos = 0;
    for r in 0..list.counts.routes {
        let route = marshalling::read_route(list, first, store, clock, r);
        if let Some(a) = field_first(
            before,
            after,
            pos,
            route.start,
            route.width,
            route.reading.value,
        ) {
            return Some(Spot::at(a));
        }
        pos = route.start + route.width;
    }
    bits_from(after, before, pos)
}

// Whether bit a lies in the field of route r.
fn lies_in(list: &AcceptedList, a: usize, r: usize) -> bool
    requires { r < list.now.counts.routes }
    ensures { result ≡ lies_in (list_as list.now) a r }
{
    let t = list.route(r);
    (t.start <= a) & (a < marshalling::route_end(list, r))
}

// The route in which a wrong bit lies. No route ends past octet 255.
fn locate(list: &AcceptedList, first: &[u16], store: &[u8], clock: u32, s: Spot) -> Option<Routed>
    requires { (Indexed (list_as list.now) first.now) × (length store.now ≡ store_octets) × (s.bit < 8) }
    ensures { place_in result ≡ located (list_as list.now) store.now clock (8 * s.octet + s.bit) }
{
    if 256 <= s.octet {
        return None;
    }
    let a = 8 * s.octet + s.bit;
    for r in 0..list.counts.routes {
        if lies_in(list, a, r) {
            let read = marshalling::read_route(list, first, store, clock, r);
            return Some(Routed {
                route: r,
                reason: read.reading.reason,
            });
        }
    }
    None
}

// Past every refusal: none where no bit is wrong.
#[tactic(auto, using(crate::proofs::Laws::found_right, crate::proofs::Laws::found_wrong))]
fn compare(
    list: &AcceptedList,
    store: &[u8],
    clock: u32,
    before: &[u8],
    after: &[u8],
) -> Option<WrongBit>
    requires { (Served (list_as list.now) store.now (length before.now)) × (length after.now ≡ length before.now) }
    ensures finds { finding_of result ≡ finding (list_as list.now) store.now clock (marshalled (list_as list.now) store.now clock before.now list.now.counts.routes) after.now }
    ensures low { IfSome result (λ w. w.bit < 8) }
{
    let mut first = [0u16; 257];
    marshalling::index(list, &mut first);
    let s = first_wrong(list, &first, store, clock, before, after)?;
    let route = locate(list, &first, store, clock, s);
    Some(WrongBit {
        octet: s.octet,
        bit: s.bit,
        route,
    })
}

// Whether two areas hold the same octets.
#[tactic(auto, using(crate::proofs::Laws::same_not))]
fn same(x: &[u8], y: &[u8]) -> bool
    ensures { result ≡ same_octets x.now y.now }
{
    if x.len() != y.len() {
        return false;
    }
    let from = skip_same(x, y, 0);
    x[from..] == y[from..]
}

// Whether a step follows on: the first one follows no other.
fn follows_on(steps: usize, last: &[u8], before: &[u8]) -> bool
    ensures { result ≡ follows steps last.now before.now }
{
    steps == 0 || same(last, before)
}

// A step under an accepted list: behind 38 and 1 to 4.
#[tactic(auto, unfolding(paper::specs::Answer::refuse_if))]
fn check_under(
    list: &AcceptedList,
    steps: usize,
    last: &[u8],
    store: &[u8],
    clock: u32,
    before: &[u8],
    after: &[u8],
) -> Result<Option<WrongBit>, Refusal>
    ensures checks { checked_answer result ≡ checking_by steps last.now (step_of store.now clock before.now after.now) (list_as list.now) }
    ensures low { Low result }
{
    if !store::is_store(store) {
        return Err(Refusal::StoreLength);
    }
    if marshalling::some_short(list, before.len()) {
        return Err(Refusal::DataShort);
    }
    if after.len() != before.len() {
        return Err(Refusal::DataLengths);
    }
    if !follows_on(steps, last, before) {
        return Err(Refusal::StepBroken);
    }
    Ok(compare(list, store, clock, before, after))
}

// Checks one step of a recording, with `steps` steps before it and `last` the data after of the last of them (any, where there is none): no wrong bit where
// `after` is what marshalling into `before` gives, else the first. Refused: 38, 1 to 5, 12, 36, 37.
pub fn check_step(
    list: &[u8],
    form: u8,
    steps: usize,
    last: &[u8],
    store: &[u8],
    clock: u32,
    before: &[u8],
    after: &[u8],
) -> Result<Option<WrongBit>, Refusal>
    ensures checks { checked_answer result ≡ checking form list.now steps last.now (step_of store.now clock before.now after.now) }
    ensures low { Low result }
{
    if MOST_STEPS <= steps {
        return Err(Refusal::StepsTooMany);
    }
    let list = AcceptedList::judged(list, form)?;
    check_under(&list, steps, last, store, clock, before, after)
}
