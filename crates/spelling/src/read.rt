// A spelling read back.
ghost use Rattle.std.specs.Prelude.{◌≡◌, ◌+◌, ◌≤◌, ◌<◌, length, get_or, take};
ghost use Rattle.spelling.specs.Reading.{is, none, tail_of, in_three, two_of, three_of, four_of, escape_of, character_by, character_at, kept, ReadAs};

use crate::hex::pair;
use crate::spell::least;

// Why no character stands at a place: the text ends there, it is no UTF-8, the character is above U+FFFF, or a backslash begins no escape.
pub const END: u8 = 1;

const NO_UTF8: u8 = 2;

pub const ABOVE: u8 = 3;

pub const ESCAPE: u8 = 4;

// A character, and how many octets spell it; where there is none, why.
#[derive(Clone, Copy)]
pub struct Character {
    pub fault: u8,
    pub unit: u16,
    pub octets: usize,
}

// How many characters were read, how many octets of the output they have, and why there are no more: END where all are read.
#[derive(Clone, Copy)]
pub struct Reading {
    pub characters: usize,
    pub octets: usize,
    pub fault: u8,
}

fn is(unit: u16, octets: usize) -> Character
    ensures { result ≡ is unit octets }
{
    Character {
        fault: 0,
        unit,
        octets,
    }
}

fn none(fault: u8) -> Character
    ensures { result ≡ none fault }
{
    Character {
        fault,
        unit: 0,
        octets: 0,
    }
}

// The six bits of an octet that goes on a character; 64 of one that does not.
fn tail(x: u8) -> u8
    ensures { (result ≡ tail_of x) × (result ≤ 64) }
{
    if x < 0x80 {
        return 64;
    }
    if x < 0xC0 {
        return x - 0x80;
    }
    64
}

fn two(a: u8, b: u8) -> Character
    requires { a < 0xE0 }
    ensures { result ≡ two_of a b }
{
    let y = tail(b);
    if a < 0xC2 {
        return none(NO_UTF8);
    }
    if 63 < y {
        return none(NO_UTF8);
    }
    is(64 * (a - 0xC0) as u16 + y as u16, 2)
}

// Not spelled longer than need be, and no half of a pair.
fn in_three(u: u16) -> bool
    ensures { result ≡ in_three u }
{
    (0x800 <= u) & ((u < 0xD800) | (0xDFFF < u))
}

fn three(a: u8, b: u8, c: u8) -> Character
    requires { (0xE0 ≤ a) × (a < 0xF0) }
    ensures { result ≡ three_of a b c }
{
    let y = tail(b);
    let z = tail(c);
    if 63 < y {
        return none(NO_UTF8);
    }
    if 63 < z {
        return none(NO_UTF8);
    }
    let u = 4096 * (a - 0xE0) as u16 + 64 * y as u16 + z as u16;
    if in_three(u) {
        return is(u, 3);
    }
    none(NO_UTF8)
}

// A character of four octets is above U+FFFF, and at most U+10FFFF.
fn four(a: u8, b: u8, c: u8, d: u8) -> Character
    requires { 0xF0 ≤ a }
    ensures { result ≡ four_of a b c d }
{
    let y = tail(b);
    let high = 64 * (a - 0xF0) as u16 + y as u16;
    let is_above = (y < 64) & (tail(c) < 64) & (tail(d) < 64) & (16 <= high) & (high < 272);
    if is_above {
        return none(ABOVE);
    }
    none(NO_UTF8)
}

// What stands behind a backslash.
fn escape(b: u8, v: u8, w: u8, x: u8, y: u8) -> Character
    ensures { result ≡ escape_of b v w x y }
{
    if b == b'\\' {
        return is(92, 2);
    }
    if b != b'u' {
        return none(ESCAPE);
    }
    let high = pair(v, w);
    let low = pair(x, y);
    if 255 < high {
        return none(ESCAPE);
    }
    if 255 < low {
        return none(ESCAPE);
    }
    is(256 * high + low, 6)
}

fn character_of(a: u8, b: u8, c: u8, d: u8, e: u8, f: u8) -> Character
    ensures { result ≡ character_by a b c d e f }
{
    if a == b'\\' {
        return escape(b, c, d, e, f);
    }
    if a < 0x80 {
        return is(a as u16, 1);
    }
    if a < 0xE0 {
        return two(a, b);
    }
    if a < 0xF0 {
        return three(a, b, c);
    }
    four(a, b, c, d)
}

// The octet k behind one; 0 past the end, which goes on no character.
fn after(s: &[u8], at: usize, k: usize) -> u8
    requires { at ≤ length s.now }
    ensures { result ≡ get_or s.now (at + k) 0 }
{
    if s.len() - at <= k {
        return 0;
    }
    s[at + k]
}

fn character_at(s: &[u8], at: usize) -> Character
    ensures { result ≡ character_at s.now at }
{
    if s.len() <= at {
        return none(END);
    }
    character_of(
        s[at],
        after(s, at, 1),
        after(s, at, 2),
        after(s, at, 3),
        after(s, at, 4),
        after(s, at, 5),
    )
}

// Of character n, if it is one of the first 128: with more a text is too long.
fn keep(out: &mut [u8], n: usize, unit: u16)
    requires { 256 ≤ length out.old }
    ensures { out.new ≡ kept out.old n unit }
{
    if n < 128 {
        octets::write16(out, 2 * n, unit as u32);
    }
}

fn read_all(text: &[u8], out: &mut [u8]) -> Reading
    requires { (length text.now ≤ 65536) × (256 ≤ length out.old) }
    ensures { ReadAs text.now out.old result out.new }
{
    let mut at = 0;
    let mut n = 0;
    loop {
        let c = character_at(text, at);
        if c.fault != 0 {
            return Reading {
                characters: n,
                octets: 2 * least(n, 128),
                fault: c.fault,
            };
        }
        keep(out, n, c.unit);
        at += c.octets;
        n += 1;
    }
}

// Reads a spelling of at most 65,536 octets; what is behind them is not read. The characters stand in `out`, as many as have room.
pub fn read_text(text: &[u8], out: &mut [u8; 256]) -> Reading
    ensures { ReadAs (take 65536 text.now) out.old result out.new }
{
    let n = least(text.len(), 65536);
    read_all(&text[..n], out)
}
