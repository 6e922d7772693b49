// A text spelled out.
ghost use Rattle.std.specs.Prelude.{◌≡◌, ◌+◌, ◌*◌, ◌≤◌, min, length, take};
ghost use Rattle.paper.specs.Octets.{over};
ghost use Rattle.spelling.specs.Spelling.{is_shown, utf8, escape, spelled, spelling, Put, Filled};

use crate::hex::digit;

pub fn least(a: usize, b: usize) -> usize
    ensures { result ≡ min a b }
{
    if a < b { a } else { b }
}

// No control character, no half of a pair, and neither U+FFFE nor U+FFFF.
fn is_shown(u: u16) -> bool
    ensures { result ≡ is_shown u }
{
    (32 <= u) & ((u < 127) | (159 < u)) & ((u < 0xD800) | (0xDFFF < u)) & (u < 0xFFFE)
}

// Inner: octets in place of those from `at` on.
pub fn put(out: &mut [u8], at: usize, s: &[u8]) -> usize
    requires { at + length s.now ≤ length out.old }
    ensures { Put out.old at s.now result out.new }
{
    octets::copy_over(out, at, s);
    at + s.len()
}

fn put_utf8(out: &mut [u8], at: usize, u: u16) -> usize
    requires { at + 3 ≤ length out.old }
    ensures { Put out.old at (utf8 u) result out.new }
{
    if u < 0x80 {
        let s = [u as u8];
        return put(out, at, &s);
    }
    if u < 0x800 {
        let s = [(0xC0 + u / 64) as u8, (0x80 + u % 64) as u8];
        return put(out, at, &s);
    }
    let s = [
        (0xE0 + u / 4096) as u8,
        (0x80 + u / 64 % 64) as u8,
        (0x80 + u % 64) as u8,
    ];
    put(out, at, &s)
}

fn put_escape(out: &mut [u8], at: usize, u: u16) -> usize
    requires { at + 6 ≤ length out.old }
    ensures { Put out.old at (escape u) result out.new }
{
    let a = digit((u / 4096) as u8);
    let b = digit((u / 256 % 16) as u8);
    let c = digit((u / 16 % 16) as u8);
    let d = digit((u % 16) as u8);
    let s = [b'\\', b'u', a, b, c, d];
    put(out, at, &s)
}

fn put_character(out: &mut [u8], at: usize, u: u16) -> usize
    requires { at + 6 ≤ length out.old }
    ensures { Put out.old at (spelled u) result out.new }
{
    if u == 92 {
        let s = [b'\\', b'\\'];
        return put(out, at, &s);
    }
    if is_shown(u) {
        return put_utf8(out, at, u);
    }
    put_escape(out, at, u)
}

fn spell_all(text: &[u8], out: &mut [u8]) -> usize
    requires { 3 * length text.now ≤ length out.old }
    ensures { Put out.old 0 (spelling text.now) result out.new }
{
    let n = text.len() / 2;
    let mut at = 0;
    let mut k = 0;
    while k < n {
        at = put_character(out, at, octets::read16(text, 2 * k) as u16);
        k += 1;
    }
    at
}

// Spells a text out, from the first octet of `out` on, and answers how many octets it has. Of a text of more than 127 characters, the first 127.
pub fn spell_text(text: &[u8], out: &mut [u8; 762]) -> usize
    ensures { Filled (spelling (take 254 text.now)) out.old result out.new }
{
    let n = least(text.len(), 254);
    spell_all(&text[..n], out)
}
