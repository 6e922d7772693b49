// Two lists gone along at once: the next type and start that one of them or both have, with the signal of each.
#![tactic(auto)]

ghost use Rattle.std.specs.Prelude.{◌≡◌};
ghost use Rattle.paper.specs.Pairs.{next_pair, pairing};
ghost use Rattle.lists.specs.Listed.{list_as};
ghost use Rattle.pairing.specs.Pairing.{next_of, pairing_answer};

use lists::AcceptedList;
use refusals::ListRefused;

// A key, type * 1024 + start, with the signal of each list that has it; the number of its signals where a list has none.
#[derive(Clone, Copy, Debug, PartialEq, Eq)]
pub struct Pair {
    pub key: usize,
    pub first: usize,
    pub second: usize,
}

// Inner: the next pair of two accepted lists, at `from` or above.
pub fn next_pair(a: &AcceptedList, b: &AcceptedList, from: usize) -> Option<Pair>
    ensures { next_of result ≡ next_pair (list_as a.now) (list_as b.now) from }
{
    let g = finding::signal_from(a, from);
    let h = finding::signal_from(b, from);
    let key = g.key.min(h.key);
    if finding::PAST_KEYS <= key {
        return None;
    }
    let first = finding::at_key(g, key, a.counts.signals);
    let second = finding::at_key(h, key, b.counts.signals);
    Some(Pair { key, first, second })
}

// The next pair whose key is `from` or above, if there is one: a caller that starts at 0 and goes on past each key meets every one. Refused: 1 to 4, of a
// before b.
pub fn pair_from(
    a: &[u8],
    form: u8,
    b: &[u8],
    other: u8,
    from: usize,
) -> Result<Option<Pair>, ListRefused>
    ensures { pairing_answer result ≡ pairing form a.now other b.now from }
{
    let a = AcceptedList::judged(a, form).map_err(ListRefused::First)?;
    let b = AcceptedList::judged(b, other).map_err(ListRefused::Second)?;
    Ok(next_pair(&a, &b, from))
}
