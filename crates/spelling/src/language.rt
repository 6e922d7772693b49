// A language: two letters, or, where an octet is no letter, `\x` and two hexadecimal digits for each.
ghost use Rattle.std.specs.Prelude.{◌≡◌};
ghost use Rattle.spelling.specs.Language.{is_letter, is_mark, language_spelled, by_letters, by_digits, language_in};
ghost use Rattle.spelling.specs.Spelling.{Filled};

use crate::hex::{digit, pair};
use crate::spell::put;

// No language: two octets have less.
pub const NO_LANGUAGE: u32 = 65536;

fn is_letter(x: u8) -> bool
    ensures { result ≡ is_letter x }
{
    (65 <= x) & (x <= 90) | (97 <= x) & (x <= 122)
}

// Spells a language out, from the first octet of `out` on, and answers how many octets it has.
pub fn spell_language(language: u16, out: &mut [u8; 8]) -> usize
    ensures { Filled (language_spelled language) out.old result out.new }
{
    let a = (language / 256) as u8;
    let b = (language % 256) as u8;
    if is_letter(a) & is_letter(b) {
        let s = [a, b];
        return put(out, 0, &s);
    }
    let c = digit(a / 16);
    let d = digit(a);
    let e = digit(b / 16);
    let f = digit(b);
    let s = [b'\\', b'x', c, d, b'\\', b'x', e, f];
    put(out, 0, &s)
}

fn by_letters(a: u8, b: u8) -> u32
    ensures { result ≡ by_letters a b }
{
    if is_letter(a) & is_letter(b) {
        return 256 * a as u32 + b as u32;
    }
    NO_LANGUAGE
}

// What stands before two digits.
fn is_mark(a: u8, b: u8) -> bool
    ensures { result ≡ is_mark a b }
{
    (a == b'\\') & (b == b'x')
}

// The language that two pairs of digits spell.
fn by_digits(a: u8, b: u8, c: u8, d: u8) -> u32
    ensures { result ≡ by_digits a b c d }
{
    let high = pair(a, b);
    let low = pair(c, d);
    if 255 < high {
        return NO_LANGUAGE;
    }
    if 255 < low {
        return NO_LANGUAGE;
    }
    256 * high as u32 + low as u32
}

// The language that a word spells.
pub fn read_language(word: &[u8]) -> u32
    ensures { result ≡ language_in word.now }
{
    if word.len() == 2 {
        return by_letters(word[0], word[1]);
    }
    if word.len() != 8 {
        return NO_LANGUAGE;
    }
    if is_mark(word[0], word[1]) & is_mark(word[4], word[5]) {
        return by_digits(word[2], word[3], word[6], word[7]);
    }
    NO_LANGUAGE
}
