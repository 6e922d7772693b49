// Places in a values file, as the programs print them: `R1 octet 54 bits 0-3`, `octets 51-52`, `start 424`.
ghost use Rattle.std.specs.Prelude.{◌≤◌, ◌<◌, IfSome};

use saying::{parted, word};

// A field that a line names; no width where it says the start alone.
#[derive(Clone, Copy, Debug, PartialEq, Eq)]
pub struct Field {
    pub start: usize,
    pub width: Option<usize>,
}

// The address of a bit of an octet: octets count from 1, bits from 0.
fn address(octet: &[u8], bit: &[u8]) -> Option<usize>
    ensures { IfSome result (λ a. a < 1024) }
{
    let o = saying::parse(octet, 128)?;
    let b = saying::parse(bit, 7)?;
    let from_1 = 8 * o + b;
    Some(from_1.checked_sub(8)? as usize)
}

fn between(first: usize, last: usize) -> Option<Field>
    requires { last < 1024 }
{
    let more = last.checked_sub(first)?;
    Some(Field {
        start: first,
        width: Some(more + 1),
    })
}

// `start S`, `octet O` or `octets O-P`.
fn two_words(name: &[u8], text: &[u8]) -> Option<Field> {
    match name {
        b"start" => Some(Field {
            start: saying::parse(text, 1023)? as usize,
            width: None,
        }),
        b"octet" => between(address(text, b"0")?, address(text, b"7")?),
        b"octets" => {
            let (low, high) = parted(text, b'-');
            between(address(low, b"0")?, address(high, b"7")?)
        }
        _ => None,
    }
}

// `bit B` or `bits B-C` of an octet.
fn of_octet(octet: &[u8], name: &[u8], text: &[u8]) -> Option<Field> {
    match name {
        b"bit" => between(address(octet, text)?, address(octet, text)?),
        b"bits" => {
            let (low, high) = parted(text, b'-');
            between(address(octet, low)?, address(octet, high)?)
        }
        _ => None,
    }
}

// `octet O bit B to P bit C`, from word k on.
fn span(line: &[u8], k: usize) -> Option<Field>
    requires { k ≤ 2 }
{
    let is_span = check::same(word(line, k + 2), b"bit")
        && check::same(word(line, k + 4), b"to")
        && check::same(word(line, k + 6), b"bit");
    if !is_span {
        return None;
    }
    let first = address(word(line, k + 1), word(line, k + 3))?;
    between(first, address(word(line, k + 5), word(line, k + 7))?)
}

// Inner: the field that the n words from word k on name.
pub fn field_at(line: &[u8], k: usize, n: usize) -> Option<Field>
    requires { k ≤ 2 }
{
    match (word(line, k), n) {
        (name, 2) => two_words(name, word(line, k + 1)),
        (b"octet", 4) => of_octet(word(line, k + 1), word(line, k + 2), word(line, k + 3)),
        (b"octet", 8) => span(line, k),
        _ => None,
    }
}

// The paper's type of a signal, 0 for a common one.
pub fn type_of(text: &[u8]) -> Option<usize> {
    match text {
        b"R1" => Some(1),
        b"R2" => Some(2),
        b"R3" => Some(0),
        _ => None,
    }
}
