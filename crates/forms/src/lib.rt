// A list moved from one form to the other, and the serial number of a signal. Every test comes before the first write.
// By a list's counts, not as an `AcceptedList`: one does not say which form it was accepted in.
#![tactic(auto)]

ghost use Rattle.std.specs.Prelude.{◌≡◌, ◌<◌, length};
ghost use Rattle.paper.specs.SignalList.{signals_part};
ghost use Rattle.paper.specs.Accepted.{Laid, Sized};
ghost use Rattle.paper.specs.Forms.{serial_at, serial_of, any_serial, to_form2, to_form1};
ghost use Rattle.refusals.specs.Outcome.{Written};
ghost use Rattle.lists.specs.Judged.{counts_of};
ghost use Rattle.forms.specs.Forms.{InSomeForm, serial_answer, resizing};

use entries::{CHECK_SIZE, SERIAL_SIZE, SIGNAL_SIZE};
use lists::{Counts, FORM_1, FORM_2};
use refusals::Refusal;

// A signal's entry in form 2.
const SERIAL_ENTRY: usize = SIGNAL_SIZE + SERIAL_SIZE;

// The serial number of signal k of an accepted list: 0 in form 1, which has none.
fn serial_in(list: &[u8], n: Counts, k: usize) -> usize
    requires { (InSomeForm list.now (counts_of n)) × (k < n.signals) }
    ensures { result ≡ serial_at n.size (signals_part list.now (counts_of n)) k }
{
    if n.size == SIGNAL_SIZE {
        return 0;
    }
    let signals = lists::rest(list, CHECK_SIZE, n.checks);
    octets::read16(signals, 2 + n.size * k + SIGNAL_SIZE)
}

// Whether a signal has one that is not 0.
fn any_serial(list: &[u8], n: Counts) -> bool
    requires { InSomeForm list.now (counts_of n) }
    ensures { result ≡ any_serial list.now (counts_of n) }
{
    for k in 0..n.signals {
        if serial_in(list, n, k) != 0 {
            return true;
        }
    }
    false
}

// The list with signal entries of `SIZE` octets into `out`: what stands before the first, of each its first 16 and zeros, and the rest. Refused: 33.
// A size that the compiler knows: the zeros of an entry are then no call.
fn resize<const SIZE: usize>(list: &[u8], n: Counts, out: &mut [u8]) -> Result<(), Refusal>
    requires laid { Laid list.now (counts_of n) }
    requires sized { Sized SIZE }
    ensures { Written (resizing SIZE list.now (counts_of n) (length out.old)) out.old result out.new }
{
    if out.len() != list.len() - n.size * n.signals + SIZE * n.signals {
        return Err(Refusal::FormOutput);
    }
    let start = 2 + CHECK_SIZE * n.checks + 2;
    octets::copy_over(out, 0, &list[..start]);
    for k in 0..n.signals {
        let from = start + n.size * k;
        let at = start + SIZE * k;
        octets::copy_over(out, at, &list[from..from + SIGNAL_SIZE]);
        octets::fill_zero(out, at + SIGNAL_SIZE, SIZE - SIGNAL_SIZE);
    }
    let end = start + n.size * n.signals;
    octets::copy_over(out, start + SIZE * n.signals, &list[end..]);
    Ok(())
}

// Moves a list in form 1 to form 2 into `out`, each serial number 0. Refused: 1 to 4, then 33, and `out` stays as it was.
#[tactic(auto, using(crate::proofs::Laws::widened_as), unfolding(paper::specs::Forms::to_form2, paper::specs::Answer::refuse_if))]
pub fn to_form_2(list: &[u8], out: &mut [u8]) -> Result<(), Refusal>
    ensures { Written (to_form2 list.now (length out.old)) out.old result out.new }
{
    let n = lists::judge(list, FORM_1)?;
    resize::<SERIAL_ENTRY>(list, n, out)
}

// Moves a list in form 2 to form 1 into `out`. Refused: 1 to 4, then 32 where a serial number is not 0, and 33, and `out` stays as it was.
#[tactic(auto, using(crate::proofs::Laws::dropped_as), unfolding(paper::specs::Forms::to_form1, paper::specs::Answer::refuse_if))]
pub fn to_form_1(list: &[u8], out: &mut [u8]) -> Result<(), Refusal>
    ensures { Written (to_form1 list.now (length out.old)) out.old result out.new }
{
    let n = lists::judge(list, FORM_2)?;
    if any_serial(list, n) {
        return Err(Refusal::SerialSet);
    }
    resize::<SIGNAL_SIZE>(list, n, out)
}

// The serial number of a signal; 0 in form 1. Refused: 1 to 4, 11.
#[tactic(auto, unfolding(paper::specs::Forms::serial_of, paper::specs::Answer::refuse_if))]
pub fn serial_of(list: &[u8], form: u8, signal: usize) -> Result<usize, Refusal>
    ensures { serial_answer result ≡ serial_of form list.now signal }
{
    let n = lists::judge(list, form)?;
    if n.signals <= signal {
        return Err(Refusal::NoSuchSignal);
    }
    Ok(serial_in(list, n, signal))
}
