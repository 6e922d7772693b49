// Addresses resolved over a train. A vehicle's marks are one octet: 1 leading, 2 coach, 4 tractive, 8 led, 16 sleeping; the three high bits are not read.
#![tactic(auto)]

ghost use Rattle.std.specs.Prelude.{◌≡◌, ◌≤◌, ◌<◌, ◌+◌, ◌*◌, ◌/◌, ◌%◌, ◌^◌, true, map, eqb, length};
ghost use Rattle.paper.specs.Train.{is_address, set_to, resolving};
ghost use Rattle.train.specs.Marks.{vehicle_of, octet_of, led_ok, consist_ok, with_mark, above, set_of, resolved_answer};

use refusals::Refusal;

// The marks of one vehicle.
#[derive(Clone, Copy, Debug, PartialEq, Eq)]
pub struct Vehicle {
    pub leading: bool,
    pub coach: bool,
    pub tractive: bool,
    pub led: bool,
    pub sleeping: bool,
}

impl Vehicle {
    // Its marks as one octet.
    pub fn octet(self) -> u8
        ensures { result ≡ octet_of (record { leading = self.leading; coach = self.coach; tractive = self.tractive; led = self.led; sleeping = self.sleeping }) }
    {
        u8::from(self.leading)
            + u8::from(self.coach) * 2
            + u8::from(self.tractive) * 4
            + u8::from(self.led) * 8
            + u8::from(self.sleeping) * 16
    }
}

// The vehicles that meet an address: bit v of the set, worth 2^v, is vehicle v, and size counts them.
#[derive(Clone, Copy, Debug, PartialEq, Eq)]
pub struct Members {
    pub set: u64,
    pub size: u32,
}

// Led needs tractive and not leading.
fn led_ok(marks: u8) -> bool
    ensures { result ≡ led_ok marks }
{
    !(marks / 8 % 2 == 1) | (marks / 4 % 2 == 1) & !(marks % 2 == 1)
}

// Inner: at most one is leading; led needs tractive and not leading. All marks are read, since a loop that does not leave early takes many at a time.
pub fn consist_ok(marks: &[u8]) -> bool
    requires { length marks.now ≤ 63 }
    ensures { result ≡ consist_ok marks.now }
{
    let mut leading = 0u8;
    let mut led = true;
    for m in marks {
        leading += *m % 2;
        led &= led_ok(*m);
    }
    (leading <= 1) & led
}

fn is_address(address: u64) -> bool
    ensures { result ≡ is_address address }
{
    matches!(address, 1..=67 | 70 | 92)
}

// Vehicle v alone, where the train of n has it.
fn alone(n: usize, v: u64) -> u64
    requires { n ≤ 63 }
    ensures { result ≡ set_to (λ i. eqb i v) n }
{
    if v == 0 || (n as u64) < v { 0 } else { 1 << v }
}

fn all(n: usize) -> u64
    requires { n ≤ 63 }
    ensures { result ≡ set_to (λ _. true) n }
{
    ((1 << n) - 1) * 2
}

// 1 if mark k is set: 0 leading, 1 coach, 2 tractive, 3 led, 4 sleeping.
fn mark(marks: u8, k: u8) -> u64
    requires { k < 8 }
    ensures { (result ≡ marks / 2 ^ k % 2) × (result < 2) }
{
    (marks as u64 >> k) % 2
}

// The vehicles i + 1 to i + 4 with mark k: four in a turn, since a turn waits for the one before.
fn four(marks: &[u8], i: usize, k: u8) -> u64
    requires { (length marks.now ≤ 63) × (i + 4 ≤ length marks.now) × (k < 8) }
    ensures { above (with_mark marks.now k) (i + 4) i result }
{
    let two = mark(marks[i + 3], k) * 2 + mark(marks[i + 2], k);
    let three = two * 2 + mark(marks[i + 1], k);
    three * 2 + mark(marks[i], k)
}

// The vehicles with mark k past the last whole four.
fn past_fours(marks: &[u8], k: u8) -> u64
    requires { (length marks.now ≤ 63) × (k < 8) }
    ensures { above (with_mark marks.now k) (length marks.now) (length marks.now / 4 * 4) result }
{
    let mut set = 0;
    for i in (marks.len() / 4 * 4..marks.len()).rev() {
        set = set * 2 + mark(marks[i], k);
    }
    set
}

// The vehicles with mark k, the last vehicle first.
fn with_mark(marks: &[u8], k: u8) -> u64
    requires { (length marks.now ≤ 63) × (k < 8) }
    ensures { result ≡ set_to (with_mark marks.now k) (length marks.now) }
{
    let mut set = past_fours(marks, k);
    for fours in (0..marks.len() / 4).rev() {
        set = set * 16 + four(marks, fours * 4, k);
    }
    set * 2
}

fn set_of(marks: &[u8], address: u64) -> u64
    requires { length marks.now ≤ 63 }
    ensures { result ≡ set_of marks.now address }
{
    match address {
        0..=63 => alone(marks.len(), address),
        64 => with_mark(marks, 0),
        65 => with_mark(marks, 3),
        66 => all(marks.len()),
        67 => with_mark(marks, 1),
        70 => with_mark(marks, 2),
        92 => with_mark(marks, 4),
        _ => 0,
    }
}

// The vehicles of the train that meet the address. Refused: 17 for the number of vehicles, 18 for the consist's rule,
// 19 for the address, 20 if nobody meets it.
pub fn resolve(marks: &[u8], address: u64) -> Result<Members, Refusal>
    ensures { resolved_answer result ≡ resolving (map vehicle_of marks.now) address }
{
    if marks.is_empty() || 63 < marks.len() {
        return Err(Refusal::ConsistLength);
    }
    if !consist_ok(marks) {
        return Err(Refusal::ConsistRule);
    }
    if !is_address(address) {
        return Err(Refusal::AddressUnlisted);
    }
    let set = set_of(marks, address);
    let size = set.count_ones();
    if size == 0 {
        return Err(Refusal::NobodyMeets);
    }
    Ok(Members { set, size })
}
