// Christening records: table E.1 of source document 002, a property by its row, and the consist that records and pairs of marks describe.
// What has a `requires` is inner: its caller in the library shows it.
#![tactic(auto)]

ghost use Rattle.std.specs.Prelude.{◌≡◌, map, ◌≤◌, ◌<◌, ◌*◌, MatchOption, length, take};
ghost use Rattle.paper.specs.Octets.{over};
ghost use Rattle.paper.specs.Christening.{properties, row_at, row_in, record_octets, is_set, described, vehicles_of, christening, property_of};
ghost use Rattle.refusals.specs.Outcome.{sought_of};
ghost use Rattle.train.specs.Marks.{octet_of};
ghost use Rattle.records.specs.Records.{pair_of, level_as, below32, coach_of, tractive_of, held_answer, ChristenedAs};

use refusals::Refusal;
use train::Vehicle;

#[derive(Clone, Copy, Debug, PartialEq, Eq)]
pub enum Level {
    Gateway,
    Vehicle,
}

// A row of table E.1, its level and its place, and whether its property holds.
#[derive(Clone, Copy, Debug, PartialEq, Eq)]
pub struct Property {
    pub level: Level,
    pub octet: u8,
    pub bit: u8,
    pub holds: bool,
}

// Octet o of a record in the table below: of the gateway's part 8 for each from octet 22 on, of the vehicle's 128 and 8 for each from octet 50 on.
const G22: u8 = 0;

const G23: u8 = 8;

const G24: u8 = 16;

const G25: u8 = 24;

const G26: u8 = 32;

const G27: u8 = 40;

const G28: u8 = 48;

const G29: u8 = 56;

const G30: u8 = 64;

const G31: u8 = 72;

const G32: u8 = 80;

const G33: u8 = 88;

const G34: u8 = 96;

const G35: u8 = 104;

const V50: u8 = 128;

const V51: u8 = 136;

const V52: u8 = 144;

const V53: u8 = 152;

const V54: u8 = 160;

// Table E.1 by its row numbers, 1 to 132 and 141 to 152: the level, G or V, and the place, its octet and its bit.
static PROPERTIES: [u8; 144] = [
    V50 + 0,
    V50 + 1,
    V50 + 2,
    V50 + 3,
    V50 + 4,
    V50 + 5,
    V50 + 6,
    V50 + 7,
    V51 + 0,
    V51 + 1,
    V51 + 2,
    V51 + 3,
    V51 + 4,
    V51 + 5,
    V51 + 6,
    V51 + 7,
    G22 + 0,
    V52 + 0,
    G22 + 1,
    V52 + 1,
    G22 + 2,
    G22 + 3,
    G22 + 4,
    G22 + 5,
    V52 + 2,
    V52 + 3,
    V52 + 4,
    V52 + 5,
    G22 + 6,
    G22 + 7,
    G23 + 0,
    G23 + 1,
    G23 + 2,
    G23 + 3,
    G23 + 4,
    G23 + 5,
    G23 + 6,
    G24 + 0,
    G24 + 1,
    G24 + 2,
    G24 + 3,
    V52 + 6,
    V52 + 7,
    G24 + 4,
    G24 + 5,
    G24 + 6,
    G24 + 7,
    G25 + 0,
    G25 + 1,
    G25 + 2,
    G25 + 3,
    G25 + 4,
    G25 + 5,
    G25 + 6,
    G25 + 7,
    G26 + 0,
    G26 + 1,
    G26 + 2,
    G26 + 3,
    G26 + 4,
    G26 + 5,
    G26 + 6,
    G26 + 7,
    G27 + 0,
    G27 + 1,
    G27 + 2,
    G27 + 3,
    G27 + 4,
    G27 + 5,
    G27 + 6,
    G27 + 7,
    G28 + 0,
    G28 + 1,
    G28 + 2,
    G28 + 3,
    G28 + 4,
    G28 + 5,
    G28 + 6,
    G28 + 7,
    G29 + 0,
    G29 + 1,
    G29 + 2,
    G29 + 3,
    G29 + 4,
    G29 + 5,
    G29 + 6,
    G29 + 7,
    G30 + 0,
    G30 + 1,
    G30 + 2,
    G30 + 3,
    G30 + 4,
    G30 + 5,
    G30 + 6,
    G30 + 7,
    G31 + 0,
    G31 + 1,
    G31 + 2,
    G31 + 3,
    G31 + 4,
    G31 + 5,
    G31 + 6,
    G31 + 7,
    G32 + 0,
    V53 + 0,
    G32 + 1,
    G32 + 2,
    V53 + 1,
    V53 + 2,
    G32 + 3,
    G32 + 4,
    G32 + 5,
    G32 + 6,
    G32 + 7,
    G33 + 0,
    G33 + 1,
    G33 + 2,
    V53 + 3,
    G33 + 3,
    G33 + 4,
    G33 + 5,
    V53 + 4,
    G33 + 6,
    G33 + 7,
    V53 + 5,
    G34 + 0,
    V53 + 6,
    G34 + 1,
    V53 + 7,
    V54 + 0,
    G34 + 2,
    G34 + 3,
    V54 + 1,
    G23 + 7,
    G34 + 4,
    G34 + 5,
    G34 + 6,
    G34 + 7,
    G35 + 0,
    G35 + 1,
    G35 + 2,
    G35 + 3,
    G35 + 4,
    G35 + 5,
];

// The bit at place o/b of a record.
fn is_set(octets: &[u8], o: usize, b: usize) -> bool
    requires { (1 ≤ o) × (o ≤ length octets.now) × (b ≤ 7) }
    ensures { result ≡ is_set octets.now o b }
{
    (octets[o - 1] >> (7 - b)) % 2 == 1
}

// A row's level and place.
#[derive(Clone, Copy, Debug, PartialEq, Eq)]
struct Placed {
    level: Level,
    octet: u8,
    bit: u8,
}

// Row i of the table, from 0.
fn row_at(i: usize) -> Placed
    requires { i < 144 }
    ensures { (level_as result.level ≡ (row_at properties i).level) × (result.octet ≡ (row_at properties i).octet) × (result.bit ≡ (row_at properties i).bit) }
{
    let p = PROPERTIES[i];
    let bit = p % 8;
    if p < 128 {
        return Placed {
            level: Level::Gateway,
            octet: p / 8 + 22,
            bit,
        };
    }
    Placed {
        level: Level::Vehicle,
        octet: p / 8 + 34,
        bit,
    }
}

// Where the row of this number stands in the table, from 0; none where it has no such row.
#[tactic(auto, using(crate::proofs::Table::low_row, crate::proofs::Table::high_row, crate::proofs::Table::no_row))]
fn index_of(row: u32) -> Option<usize>
    ensures row { row_in properties row ≡ sought_of (row_at properties) result }
    ensures within { MatchOption result (Unit {0}) (λ i. i < 144) }
{
    match row {
        1..=132 => Some(row as usize - 1),
        141..=152 => Some(row as usize - 9),
        _ => None,
    }
}

// Whether the property of this row holds in a record, with its level and place; none where the table has no row of this number.
pub fn property_of(octets: &[u8; 56], row: u32) -> Option<Property>
    ensures { held_answer row result ≡ property_of octets.now row }
{
    let i = index_of(row)?;
    let p = row_at(i);
    Some(Property {
        level: p.level,
        octet: p.octet,
        bit: p.bit,
        holds: is_set(octets, p.octet as usize, p.bit as usize),
    })
}

// 50/0, 50/1, 51/0, 51/3 or 51/4.
fn is_coach(octets: &[u8]) -> bool
    requires { length octets.now ≡ record_octets }
    ensures { result ≡ coach_of octets.now }
{
    is_set(octets, 50, 0)
        | is_set(octets, 50, 1)
        | is_set(octets, 51, 0)
        | is_set(octets, 51, 3)
        | is_set(octets, 51, 4)
}

// 24/0 or 24/1.
fn is_tractive(octets: &[u8]) -> bool
    requires { length octets.now ≡ record_octets }
    ensures { result ≡ tractive_of octets.now }
{
    is_set(octets, 24, 0) | is_set(octets, 24, 1)
}

// The mark octet of a vehicle, as `train` reads it. Of the pair, 1 is leading and 8 is led; its other bits are not read.
#[tactic(auto, unfolding(paper::specs::Christening::described))]
fn mark_octet(octets: &[u8], pair: u8) -> u8
    requires { length octets.now ≡ record_octets }
    ensures { result ≡ octet_of (described octets.now (pair_of pair)) }
{
    let vehicle = Vehicle {
        leading: pair % 2 == 1,
        coach: is_coach(octets),
        tractive: is_tractive(octets),
        led: pair / 8 % 2 == 1,
        sleeping: is_set(octets, 51, 4),
    };
    vehicle.octet()
}

// The mark octets of up to 63 vehicles, and zeros after them.
fn marks_of(records: &[u8], pairs: &[u8]) -> [u8; 63]
    requires { (length pairs.now ≤ 63) × (length records.now ≡ record_octets * length pairs.now) }
    ensures { take (length pairs.now) result ≡ map octet_of (vehicles_of records.now (map pair_of pairs.now)) }
{
    let mut at = [0; 63];
    for (i, pair) in pairs.iter().enumerate() {
        let from = i * 56;
        at[i] = mark_octet(&records[from..from + 56], *pair);
    }
    at
}

// The mark octets over the first of `marks`. Each is below 32, so the remainder changes none; without it the compiler makes a call of `memcpy` of this,
// a symbol that a firmware would have to bring.
fn write_marks(marks: &mut [u8], at: &[u8])
    requires { length at.now ≤ length marks.old }
    ensures { marks.new ≡ over marks.old 0 (map below32 at.now) }
{
    for (i, octet) in at.iter().enumerate() {
        marks[i] = *octet % 32;
    }
}

// Builds the consist: the mark octets that `train::resolve` takes, one a vehicle, into the first of `marks`; the others stay, and the number of vehicles is
// given. One pair a vehicle: 1 leading, 8 led. Refused: 31 for the records or the number of pairs, then 17 and 18.
pub fn christen(records: &[u8], pairs: &[u8], marks: &mut [u8; 63]) -> Result<usize, Refusal>
    ensures { ChristenedAs (christening records.now (map pair_of pairs.now)) marks.old result marks.new }
{
    let n = pairs.len();
    if records.len() % 56 != 0 || records.len() / 56 != n {
        return Err(Refusal::RecordsMisfit);
    }
    if n == 0 || 63 < n {
        return Err(Refusal::ConsistLength);
    }
    let octets = marks_of(records, pairs);
    let at = &octets[..n];
    if !train::consist_ok(at) {
        return Err(Refusal::ConsistRule);
    }
    write_marks(marks, at);
    Ok(n)
}
