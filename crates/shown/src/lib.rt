// A reading shown as a code, a speed in km/h, a percentage or a current.
#![tactic(auto)]

ghost use Rattle.std.specs.Prelude.{◌≡◌, false, true, ◌<◌, ◌^◌};
ghost use Rattle.paper.specs.Shown.{nearest, signed_percent, shown_as, shown_width, showing_by, showing};
ghost use Rattle.lists.specs.Listed.{list_as};
ghost use Rattle.reading.specs.Reading.{as_reading};
ghost use Rattle.shown.specs.Show.{kind_of, shown_of, showing_answer};

use lists::AcceptedList;
use reading::{Reading, Reason};
use refusals::Refusal;

// What a raw value is shown as; a percentage is unsigned or two's complement.
#[derive(Clone, Copy, Debug, PartialEq, Eq)]
pub enum Kind {
    Code,
    Speed,
    Percentage,
    SignedPercentage,
    Current,
}

// A reading as shown: a code is a whole number, a scaled one an exact f32.
#[derive(Clone, Copy, Debug, PartialEq)]
pub enum Shown {
    Code(u64),
    Speed(f32),
    Percentage(f32),
    Current(f32),
}

// With the reason that it was read with.
#[derive(Clone, Copy, Debug, PartialEq)]
pub struct ShownReading {
    pub shown: Shown,
    pub reason: Reason,
}

// n / 4096: every scale here is a whole number of 4096ths to a step, and an f32 holds each whole number below 2^24.
fn parts(n: u64) -> f32
    requires { n < 2 ^ 24 }
    ensures { result ≡ nearest false n 4096 }
{
    (n as f32) / 4096.0
}

// -n / 4096, for an n that is not 0: a zero would be -0.
fn parts_below(n: u64) -> f32
    requires { n < 2 ^ 24 }
    ensures { result ≡ nearest true n 4096 }
{
    (n as f32) / -4096.0
}

// Two's complement: from 32768 up a raw value stands for raw - 65536.
fn signed_percent(raw: u64) -> f32
    requires { raw < 65536 }
    ensures { result ≡ signed_percent raw }
{
    if raw < 32768 {
        parts(raw * 25)
    } else {
        parts_below((65536 - raw) * 25)
    }
}

// The value on its scale, of 16 bits.
fn value(kind: Kind, raw: u64) -> Shown
    requires { raw < 65536 }
    ensures { shown_of result ≡ shown_as (kind_of kind) raw }
{
    match kind {
        Kind::Code => Shown::Code(raw),
        Kind::Speed => Shown::Speed(parts(raw * 64)),
        Kind::Percentage => Shown::Percentage(parts(raw * 25)),
        Kind::SignedPercentage => Shown::Percentage(signed_percent(raw)),
        Kind::Current => Shown::Current(parts(raw * 250)),
    }
}

// A reading of a signal of this width: a scaled kind needs 16 bits, which its value then fits.
#[tactic(auto, unfolding(paper::specs::Answer::refuse_if))]
fn shown_as(kind: Kind, width: usize, r: Reading) -> Result<ShownReading, Refusal>
    requires { width ≡ 16 → r.value < 65536 }
    ensures { showing_answer result ≡ shown_width (kind_of kind) width (as_reading r) }
{
    if kind == Kind::Code {
        return Ok(ShownReading {
            shown: Shown::Code(r.value),
            reason: r.reason,
        });
    }
    if width != 16 {
        return Err(Refusal::ScaledKind);
    }
    Ok(ShownReading {
        shown: value(kind, r.value),
        reason: r.reason,
    })
}

// Under an accepted list.
#[tactic(auto, using(refusals::proofs::WrittenLaws::stays_err, paper::proofs::AnswerLaws::goes_on_lem), unfolding(reading::specs::Reading::reading_under))]
fn show_under(
    list: &AcceptedList,
    store: &[u8],
    clock: u32,
    vehicle: usize,
    signal: usize,
    kind: Kind,
) -> Result<ShownReading, Refusal>
    ensures { showing_answer result ≡ showing_by store.now clock vehicle signal (kind_of kind) (list_as list.now) }
{
    let r = reading::read_under(list, store, clock, vehicle, signal)?;
    shown_as(kind, list.width(signal), r)
}

// Reads a signal of a vehicle at `clock` and shows it as the kind asks. Refused: 1 to 4, then 5, 6 and 11, then 26 for a scaled kind of a signal whose
// width is not 16.
#[tactic(auto, using(refusals::proofs::WrittenLaws::handed_on, lists::proofs::Laws::under_accepted, lists::proofs::Laws::under_refused), unfolding(paper::specs::Shown::showing))]
pub fn show(
    list: &[u8],
    form: u8,
    store: &[u8],
    clock: u32,
    vehicle: usize,
    signal: usize,
    kind: Kind,
) -> Result<ShownReading, Refusal>
    ensures { showing_answer result ≡ showing form list.now store.now clock vehicle signal (kind_of kind) }
{
    let list = AcceptedList::judged(list, form)?;
    show_under(&list, store, clock, vehicle, signal, kind)
}
