// Which text a telegram is refused for.
ghost use Rattle.saying.specs.Lines.{InRoom};

use gateway::Refusal;
use saying::{Line, say};

// Octet k; 0 past the last.
fn octet(s: &[u8], k: usize) -> u8 {
    s.get(k).copied().unwrap_or(0)
}

fn say_key(line: Line, keys: &[u8], k: usize) -> Line
    ensures { InRoom line.at result.at }
{
    saying::say_number(say(line, b": F"), octet(keys, k) as u64)
}

// Whether one of the keys before k is the same.
fn is_again(keys: &[u8], k: usize) -> bool {
    (0..k).any(|j| octet(keys, j) == octet(keys, k))
}

fn first_again(keys: &[u8]) -> usize {
    let n = keys.len();
    (0..n).find(|&k| is_again(keys, k)).unwrap_or(n)
}

// The first text of more than 127 characters.
fn first_long(lengths: &[u16]) -> usize {
    let n = lengths.len();
    lengths.iter().position(|&size| 254 < size).unwrap_or(n)
}

fn say_field(line: Line, keys: &[u8], lengths: &[u16]) -> Line
    ensures { InRoom line.at result.at }
{
    match keys.len() {
        0 => say(line, b": no text"),
        1..=8 => say(
            say_key(line, keys, first_long(lengths)),
            b" has more than 127 characters",
        ),
        _ => say(line, b": more than 8 texts"),
    }
}

// The first text that is at fault decides the number, so that what is looked for is the first of its kind.
pub fn say_more(line: Line, f: Refusal, keys: &[u8], lengths: &[u16]) -> Line
    ensures { InRoom line.at result.at }
{
    match f {
        Refusal::KeyTwice => say_key(line, keys, first_again(keys)),
        Refusal::RemedyField => say_field(line, keys, lengths),
        _ => line,
    }
}
