// The remedies and tests of telegram 8.8A, written. What has a `requires` is inner: its caller in the library shows it.
#![tactic(auto)]

ghost use Rattle.std.specs.Prelude.{◌≡◌, [], map, ◌+◌, ◌*◌, ◌≤◌, eqb, leb, length, get_or, take, drop};
ghost use Rattle.paper.specs.Octets.{over};
ghost use Rattle.paper.specs.Remedies.{blocks_of, area_to, area_blocks, first_fault, handed_fault, block_octets, blocks_to, remedy_writing};
ghost use Rattle.texts.specs.Texts.{Fault};
ghost use Rattle.textwriting.specs.Writing.{handed_at, count_holds, front_of, handed_of, size_in, Fit, WroteAs};

use refusals::Refusal;

// The octets of the telegram of these texts, where they are not more than `room`.
fn size_in(texts: &[&[u8]], room: usize) -> Option<usize>
    ensures { result ≡ size_in (blocks_of [] (map (λ x. x.now) texts.now)) room }
{
    let mut left = room.checked_sub(30)?;
    for text in texts {
        left = left.checked_sub(6)?.checked_sub(text.len())?;
    }
    Some(room - left)
}

// Refuses a block as handed in by its lowest number, by the keys seen before it.
#[tactic(auto, using(paper::proofs::RemedyLaws::field_rules), unfolding(crate::specs::Writing::handed_at, paper::specs::Answer::refuse_if))]
fn handed_fault(key: u8, size: usize, seen: u8) -> Result<(), Refusal>
    ensures { Fault (handed_at key size seen) result }
{
    if !texts::field_rule(key, size) {
        return Err(Refusal::RemedyField);
    }
    if texts::has(seen, key) {
        return Err(Refusal::KeyTwice);
    }
    Ok(())
}

// Refuses the first of the blocks that has a fault.
fn first_handed(keys: &[u8], texts: &[&[u8]]) -> Result<(), Refusal>
    requires { length keys.now ≡ length texts.now }
    ensures { Fault (first_fault (handed_fault (blocks_of keys.now (map (λ x. x.now) texts.now))) (length texts.now)) result }
{
    let mut seen = 0u8;
    for (&key, text) in keys.iter().zip(texts) {
        handed_fault(key, text.len(), seen)?;
        seen = texts::with(seen, key);
    }
    Ok(())
}

fn write_block(out: &mut [u8], at: usize, key: u8, text: &[u8])
    requires { (at + (6 + length text.now) ≤ length out.old) × (length text.now ≤ 254) }
    ensures { out.new ≡ over out.old at (block_octets key text.now) }
{
    let size = text.len() as u32;
    octets::write16(out, at, 6 + size);
    octets::write16(out, at + 2, key as u32 * 256);
    octets::write16(out, at + 4, size);
    octets::copy_over(out, at + 6, text);
}

// Octets 1 to 30.
fn write_front(
    out: &mut [u8],
    head: &[u8; 6],
    carried: &[u8; 12],
    language: u16,
    ordered: u8,
    count: u8,
)
    requires { 30 ≤ length out.old }
    ensures { (out.new ≡ over out.old 0 (front_of head.now carried.now language ordered count)) × (length head.now ≡ 6) × (length carried.now ≡ 12) }
{
    octets::copy_over(out, 0, head);
    octets::write16(out, 6, 0x8A08);
    octets::copy_over(out, 8, carried);
    octets::write16(out, 20, language as u32);
    octets::write16(out, 22, ordered as u32 * 256 + count as u32);
    octets::fill_zero(out, 24, 6);
}

// The blocks, from octet 31 on.
fn write_blocks(out: &mut [u8], keys: &[u8], texts: &[&[u8]])
    requires agree { length keys.now ≡ length texts.now }
    requires room { Fit (blocks_of keys.now (map (λ x. x.now) texts.now)) (length out.old) }
    ensures { out.new ≡ over out.old 30 (blocks_to (blocks_of keys.now (map (λ x. x.now) texts.now)) (length texts.now)) }
{
    let mut at = 30;
    for (&key, text) in keys.iter().zip(texts) {
        write_block(out, at, key, text);
        at += 6 + text.len();
    }
}

fn count_rule(ordered: u8, n: usize) -> bool
    ensures { result ≡ count_holds ordered n }
{
    (ordered <= 1) & (1 <= n) & (n <= 8)
}

// Writes the telegram of octets 1-6, octets 9-20, a language, octet 23 and blocks, a key and a text each; the rest of `out` stays.
// Refused: 29 where there are not as many keys as texts, then 25, 29, 30.
pub fn write_remedies(
    head: &[u8; 6],
    carried: &[u8; 12],
    language: u16,
    ordered: u8,
    keys: &[u8],
    texts: &[&[u8]],
    out: &mut [u8],
) -> Result<usize, Refusal>
    ensures { WroteAs (remedy_writing (handed_of head.now carried.now language ordered (blocks_of keys.now (map (λ x. x.now) texts.now))) out.old) out.old result out.new }
{
    let n = texts.len();
    if keys.len() != n {
        return Err(Refusal::RemedyField);
    }
    let Some(size) = size_in(texts, out.len()) else {
        return Err(Refusal::OutputShort);
    };
    if !count_rule(ordered, n) {
        return Err(Refusal::RemedyField);
    }
    first_handed(keys, texts)?;
    write_front(out, head, carried, language, ordered, n as u8);
    write_blocks(out, keys, texts);
    Ok(size)
}

// Whether the lengths add up to so many octets.
#[tactic(auto, using(crate::proofs::Laws::area_none, crate::proofs::Laws::area_more))]
fn adds_up(lengths: &[u16], octets: usize) -> bool
    ensures { result ≡ eqb (area_to lengths.now (length lengths.now)) octets }
{
    let mut left = octets;
    for &size in lengths {
        let size = usize::from(size);
        if left < size {
            return false;
        }
        left -= size;
    }
    left == 0
}

// Whether so many blocks with so many octets of text in all have room.
fn has_room(n: usize, octets: usize, room: usize) -> bool
    ensures { result ≡ leb (30 + 6 * n + octets) room }
{
    if room < 30 {
        return false;
    }
    if (room - 30) / 6 < n {
        return false;
    }
    octets <= room - 30 - 6 * n
}

// Writes the same telegram, its texts lent as one area, one text behind the other, and a table of their lengths.
// Refused: 29 where there are not as many keys as lengths, or the lengths do not add up to the area, then 25, 29, 30.
pub fn write_area(
    head: &[u8; 6],
    carried: &[u8; 12],
    language: u16,
    ordered: u8,
    keys: &[u8],
    lengths: &[u16],
    area: &[u8],
    out: &mut [u8],
) -> Result<usize, Refusal>
    ensures { WroteAs (remedy_writing (handed_of head.now carried.now language ordered (area_blocks keys.now lengths.now area.now)) out.old) out.old result out.new }
{
    let n = lengths.len();
    if !adds_up(lengths, area.len()) {
        return Err(Refusal::RemedyField);
    }
    if keys.len() != n {
        return Err(Refusal::RemedyField);
    }
    if 8 < n {
        return Err(if has_room(n, area.len(), out.len()) {
            Refusal::RemedyField
        } else {
            Refusal::OutputShort
        });
    }
    let mut texts = [&area[..0]; 8];
    let mut at = 0;
    for (k, &size) in lengths.iter().enumerate() {
        let size = usize::from(size);
        texts[k] = texts::part(area, at, size);
        at += size;
    }
    write_remedies(head, carried, language, ordered, keys, &texts[..n], out)
}
