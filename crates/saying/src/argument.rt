// The words that a program was started with.
ghost use Rattle.std.specs.Prelude.{◌≡◌, ◌≤◌, cond, None, Some, IfSome};
ghost use Rattle.io.specs.Counts.{IsPrefixLen};
ghost use Rattle.saying.specs.Lines.{InRoom};
ghost use Rattle.saying.specs.Numbers.{goes_on, and_digit, number_in};

use crate::line::{Line, empty, print, put, say, say_number};
use std::env::{Env, FillError};

// n with one digit more, if the octet is one and the number is at most `most`.
fn and_digit(n: u64, x: u8, most: u64) -> Option<u64>
    ensures value { result ≡ cond (goes_on most n x) (Some (and_digit n x)) None }
    ensures at_most { IfSome result (λ m. m ≤ most) }
{
    if !x.is_ascii_digit() {
        return None;
    }
    let n = n.checked_mul(10)?.checked_add((x - b'0') as u64)?;
    (n <= most).then_some(n)
}

// A decimal number of at least one digit, at most `most`.
#[tactic(auto, using(crate::proofs::Laws::goes, crate::proofs::Laws::stops, crate::proofs::Laws::done))]
pub fn parse(text: &[u8], most: u64) -> Option<u64>
    ensures value { result ≡ number_in most text.now }
    ensures at_most { IfSome result (λ n. n ≤ most) }
{
    if text.is_empty() {
        return None;
    }
    let mut n = 0;
    for &x in text {
        n = and_digit(n, x, most)?;
    }
    Some(n)
}

// Argument i at the start of `word`, and how many octets it has; 0 where there is none, or where it is longer, and then its first octets fill `word`.
fn argument(rt: &impl Env, i: usize, word: &mut [u8]) -> usize
    ensures { IsPrefixLen result word.new }
{
    rt.arg(i, word).unwrap_or(0)
}

fn is_given(rt: &impl Env, i: usize) -> bool {
    let mut one = [0u8; 1];
    !matches!(rt.arg(i, &mut one), Err(FillError::NotPresent))
}

// With how many words a program was started, its own name among them.
pub fn argument_count(rt: &impl Env) -> usize {
    (0..usize::MAX)
        .find(|&i| !is_given(rt, i))
        .unwrap_or(usize::MAX)
}

// Argument i as a number. A word of more than 40 octets is taken for none, leading zeros or not.
pub fn number_of(rt: &impl Env, i: usize, most: u64) -> Option<u64> {
    let mut word = [0u8; 40];
    let n = argument(rt, i, &mut word);
    parse(&word[..n], most)
}

// Whether argument i is a word.
pub fn is_word(rt: &impl Env, i: usize, expected: &[u8]) -> bool {
    let mut word = [0u8; 40];
    let n = argument(rt, i, &mut word);
    check::same(&word[..n], expected)
}

// Whether a program of n words, its own name among them, was given this one as an option: as argument `from` or behind it.
pub fn has_option(rt: &impl Env, from: usize, n: usize, word: &[u8]) -> bool {
    (from..n).any(|i| is_word(rt, i, word))
}

pub fn one_if(is_there: bool) -> usize
    ensures { result ≤ 1 }
{
    usize::from(is_there)
}

// How many words of n, the program's own name among them, stand before so many options: an option that is given twice, or before another word,
// is taken for that word.
pub fn words_before(n: usize, options: usize) -> usize {
    n.saturating_sub(1).saturating_sub(options)
}

// Whether a program of n words, its own name among them, is asked what it takes.
pub fn asks_help(rt: &impl Env, n: usize) -> bool {
    n == 2 && (is_word(rt, 1, b"help") || is_word(rt, 1, b"--help") || is_word(rt, 1, b"-h"))
}

// What would break the line is shown as a question mark.
fn shown(octet: u8) -> u8 {
    if octet.is_ascii_control() {
        b'?'
    } else {
        octet
    }
}

fn say_shown(line: Line, text: &[u8]) -> Line
    ensures { InRoom line.at result.at }
{
    let mut l = line;
    for &octet in text {
        l = put(l, shown(octet));
    }
    l
}

// Argument i as it was given, in quotes, cut where it is long, and with `behind` behind it.
pub fn say_argument(rt: &impl Env, line: Line, i: usize, behind: &[u8]) -> Line
    ensures { InRoom line.at result.at }
{
    let mut word = [0u8; 100];
    let l = put(line, b'\'');
    let l = match rt.arg(i, &mut word) {
        Ok(n) => say_shown(l, &word[..n]),
        Err(FillError::TooLong) => say(say_shown(l, &word), b".."),
        Err(FillError::NotPresent) => l,
    };
    put(say(l, behind), b'\'')
}

// A path in quotes, cut and ended in the same way.
pub fn say_quoted(line: Line, text: &[u8], behind: &[u8]) -> Line
    ensures { InRoom line.at result.at }
{
    let n = text.len().min(100);
    let l = say_shown(put(line, b'\''), &text[..n]);
    let l = if n < text.len() { say(l, b"..") } else { l };
    put(say(l, behind), b'\'')
}

// The error line on argument i, up to what is wrong with it.
pub fn say_error(rt: &impl Env, i: usize, name: &[u8], behind: &[u8]) -> Line
    ensures { result.at ≤ 240 }
{
    let l = put(say(say(empty(), b"error: "), name), b' ');
    say(say_argument(rt, l, i, behind), b": ")
}

// The error line for argument i, which is not what it has to be.
pub fn print_word(rt: &impl Env, i: usize, name: &[u8], what: &[u8]) {
    print(say(say_error(rt, i, name, b""), what));
}

// Argument i as a number; where it is none, an error line names it.
pub fn number_argument(rt: &impl Env, i: usize, name: &[u8], most: u64) -> Option<u64> {
    let n = number_of(rt, i, most);
    if n.is_none() {
        let l = say_error(rt, i, name, b"");
        print(say_number(say(l, b"not a whole number from 0 to "), most));
    }
    n
}

// The same where it may be left out: `other` stands for it where fewer words were given.
pub fn number_or(rt: &impl Env, words: usize, i: usize, name: &[u8], other: u64) -> Option<u64> {
    if words < i {
        return Some(other);
    }
    number_argument(rt, i, name, u32::MAX as u64)
}

pub fn clock_argument(rt: &impl Env, i: usize) -> Option<u32> {
    let n = number_argument(rt, i, b"CLOCK", u32::MAX as u64)?;
    u32::try_from(n).ok()
}

// The error line for words that are too few, too many or unknown.
pub fn print_usage(usage: &[u8]) {
    print(say(say(empty(), b"error: usage: "), usage));
}
