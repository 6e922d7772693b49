// The remedies and tests of telegram 8.8A, read: the telegram judged, and the key and the text of each of its blocks. Block 0 is the first.
// What has a `requires` is inner: its caller in the library shows it.
#![tactic(auto)]

ghost use Rattle.std.specs.Prelude.{◌≡◌, ◌+◌, ◌-◌, ◌*◌, ◌^◌, ◌<◌, ◌≤◌, length, get_or, take, drop};
ghost use Rattle.std.specs.Int.Bits.{bit_or};
ghost use Rattle.paper.specs.Octets.{number};
ghost use Rattle.paper.specs.Remedies.{start, field_rule, remedy_of, remedy_reading, remedy_block, remedy_text};
ghost use Rattle.texts.specs.Texts.{holds, fault_at, Fault, faults_of, head_holds, placed, read_answer, remedy_answer};

use refusals::Refusal;

// What a telegram says beside its blocks; ordered: octet 23, 1 where the language is the one ordered.
#[derive(Clone, Copy, Debug, PartialEq, Eq)]
pub struct Remedies {
    pub language: u16,
    pub ordered: u8,
    pub count: u8,
}

// A block's key, and where its text stands: `size` octets, the first of them at `at`, counted from 0.
#[derive(Clone, Copy, Debug, PartialEq, Eq)]
pub struct Remedy {
    pub key: u8,
    pub at: usize,
    pub size: usize,
}

// Octet i, 0 past the end.
pub fn octet(s: &[u8], i: usize) -> u8
    ensures { result ≡ get_or s.now i 0 }
{
    s.get(i).copied().unwrap_or(0)
}

// Inner: the number of two octets from `at` on, of which those past the end count as 0.
#[tactic(auto, using(paper::proofs::NumberLaws::number_two))]
fn number_at(s: &[u8], at: usize) -> usize
    requires { at < 2 ^ 32 }
    ensures { (result ≡ number s.now at 2) × (result < 65536) }
{
    octets::wide(octet(s, at)) * 256 + octets::wide(octet(s, at + 1))
}

// The n octets from a on, as far as they are there.
pub fn part(s: &[u8], a: usize, n: usize) -> &[u8]
    ensures { result.now ≡ take n (drop a s.now) }
{
    let from = a.min(s.len());
    let size = n.min(s.len() - from);
    &s[from..from + size]
}

// Where block k starts, by the lengths of those before it.
#[tactic(auto, using(crate::proofs::Laws::start_none, crate::proofs::Laws::start_more))]
fn start_of(telegram: &[u8], k: usize) -> usize
    requires { k ≤ 255 }
    ensures { (result ≡ start telegram.now k) × (result ≤ 30 + 65535 * k) }
{
    let mut at = 30;
    for _ in 0..k {
        at += number_at(telegram, at);
    }
    at
}

fn block_of(telegram: &[u8], k: usize) -> Remedy
    requires { k ≤ 255 }
    ensures { placed result ≡ remedy_of telegram.now k }
{
    let at = start_of(telegram, k);
    Remedy {
        key: octet(telegram, at + 2),
        at: at + 6,
        size: number_at(telegram, at + 4),
    }
}

// Inner: a set of keys has one; bit x - 1 of the set is key x.
pub fn has(set: u8, key: u8) -> bool
    requires { (1 ≤ key) × (key ≤ 8) }
    ensures { result ≡ holds set key }
{
    (set >> (key - 1)) % 2 == 1
}

// Inner: the set with one more.
pub fn with(set: u8, key: u8) -> u8
    requires { (1 ≤ key) × (key ≤ 8) }
    ensures { result ≡ bit_or set (2 ^ (key - 1)) }
{
    set | 1u8 << (key - 1)
}

// A block's key and the length of its text are in their range.
pub fn field_rule(key: u8, size: usize) -> bool
    ensures { result ≡ field_rule key size }
{
    (1 <= key) & (key <= 8) & (size % 2 == 0) & (size <= 254)
}

// Refuses the block that starts at `at` by its lowest number, by the keys seen before it.
#[tactic(auto, using(crate::proofs::Laws::past_first, crate::proofs::Laws::past_length, crate::proofs::Laws::not_past, crate::proofs::Laws::by_past, crate::proofs::Laws::by_broken, crate::proofs::Laws::by_twice, crate::proofs::Laws::by_none))]
fn fault(telegram: &[u8], at: usize, seen: u8) -> Result<(), Refusal>
    requires { at ≤ length telegram.now }
    ensures { Fault (fault_at telegram.now at seen) result }
{
    let left = telegram.len() - at;
    if left < 6 {
        return Err(Refusal::BlockPast);
    }
    let size = octets::read16(telegram, at);
    if left < size {
        return Err(Refusal::BlockPast);
    }
    let key = telegram[at + 2];
    let text = octets::read16(telegram, at + 4);
    if !(field_rule(key, text) & (size == 6 + text)) {
        return Err(Refusal::RemedyField);
    }
    if has(seen, key) {
        return Err(Refusal::KeyTwice);
    }
    Ok(())
}

// Refuses the first of n blocks that has a fault, then octets after the last.
fn first_fault(telegram: &[u8], n: usize) -> Result<(), Refusal>
    requires { 30 ≤ length telegram.now }
    ensures { Fault (faults_of telegram.now n) result }
{
    let mut at = 30;
    let mut seen = 0u8;
    for _ in 0..n {
        fault(telegram, at, seen)?;
        seen = with(seen, telegram[at + 2]);
        at += octets::read16(telegram, at);
    }
    if at < telegram.len() {
        return Err(Refusal::BlockPast);
    }
    Ok(())
}

// Octets 7 to 24.
fn head_rule(code: u16, ordered: u8, count: u8) -> bool
    ensures { result ≡ head_holds code ordered count }
{
    (code == 0x8A08) & (ordered <= 1) & (1 <= count) & (count <= 8)
}

// Judges a telegram, and gives what it says beside its blocks. Refused: 21, 28, 29, 30.
pub fn read_remedies(telegram: &[u8]) -> Result<Remedies, Refusal>
    ensures { read_answer result ≡ remedy_reading telegram.now }
{
    if telegram.len() < 30 {
        return Err(Refusal::ELength);
    }
    let code = octets::read16(telegram, 6) as u16;
    if etelegrams::e_limit(code) < telegram.len() {
        return Err(Refusal::ELength);
    }
    let ordered = telegram[22];
    let count = telegram[23];
    if !head_rule(code, ordered, count) {
        return Err(Refusal::RemedyField);
    }
    first_fault(telegram, octets::wide(count))?;
    let language = octets::read16(telegram, 20) as u16;
    Ok(Remedies {
        language,
        ordered,
        count,
    })
}

// Block k of a telegram that is read: its key, and where its text stands; nothing past the last. Refused as above.
#[tactic(auto, using(crate::proofs::Laws::by_block, crate::proofs::Laws::by_last, refusals::proofs::WrittenLaws::stays_err), unfolding(paper::specs::Remedies::remedy_block))]
pub fn remedy_block(telegram: &[u8], k: usize) -> Result<Option<Remedy>, Refusal>
    ensures { remedy_answer result ≡ remedy_block telegram.now k }
{
    let read = read_remedies(telegram)?;
    if k < octets::wide(read.count) {
        return Ok(Some(block_of(telegram, k)));
    }
    Ok(None)
}

// Its text, as the part of the telegram it stands in; no octet of a telegram that is refused, and none past the last block.
#[tactic(auto, using(crate::proofs::Laws::by_found, crate::proofs::Laws::by_nothing, crate::proofs::Laws::by_refused))]
pub fn remedy_text(telegram: &[u8], k: usize) -> &[u8]
    ensures { result.now ≡ remedy_text telegram.now k }
{
    match remedy_block(telegram, k) {
        Ok(Some(block)) => part(telegram, block.at, block.size),
        _ => &[],
    }
}
