// Composing an R-telegram from one value per signal and one mark per check. Every test comes before the first write.
#![tactic(auto)]

ghost use Rattle.std.specs.Prelude.{◌≡◌, true, cond, ◌+◌, ◌*◌, ◌<◌, length, leb};
ghost use Rattle.paper.specs.Octets.{put, puts};
ghost use Rattle.paper.specs.First.{first_bad};
ghost use Rattle.paper.specs.Telegrams.{type_length, mark_width};
ghost use Rattle.paper.specs.Composing.{signal_put, check_put, mark_fits, value_fits, composed, composing};
ghost use Rattle.octets.specs.Fields.{Within};
ghost use Rattle.refusals.specs.Outcome.{outcome_of, Written};
ghost use Rattle.lists.specs.Listed.{list_as};
ghost use Rattle.known.specs.Known.{Entries};
ghost use Rattle.composing.specs.Composing.{head_of, Room, composing_tests, composing_under};

use known::Span;
use lists::AcceptedList;
use refusals::Refusal;

// A check is written where both its bits lie within the telegram's length.
fn is_within(place: usize, kind: usize) -> bool
    requires { place < 65536 }
    ensures { result ≡ leb (place + mark_width) (8 * type_length kind) }
{
    place + 2 <= 8 * telegrams::type_length(kind)
}

// A mark that is not written is not tested.
#[tactic(auto, unfolding(paper::specs::Composing::mark_fits))]
fn mark_fits(list: &AcceptedList, kind: usize, marks: &[u8], j: usize) -> bool
    requires { (length marks.now ≡ list.now.counts.checks) × (j < list.now.counts.checks) }
    ensures { result ≡ mark_fits (list_as list.now) kind marks.now j }
{
    !is_within(list.check(j), kind) | (marks[j] <= 3)
}

// Nor is a value.
#[tactic(auto, unfolding(paper::specs::Composing::value_fits))]
fn value_fits(list: &AcceptedList, kind: usize, values: &[u64], k: usize, own: Span) -> bool
    requires { (length values.now ≡ list.now.counts.signals) × (k < list.now.counts.signals) × (Entries (list_as list.now) k own) }
    ensures { result ≡ value_fits (list_as list.now) kind values.now k }
{
    let s = list.signal(k);
    let v = values[k];
    !telegrams::is_carried(kind, s.kind) | octets::fits(v, s.width) & known::knows(list, k, own, v)
}

// The first check with a written mark above 3, or the number of checks.
#[tactic(auto, using(paper::proofs::LoopLaws::fails_nowhere))]
fn first_bad_mark(list: &AcceptedList, kind: usize, marks: &[u8]) -> usize
    requires { length marks.now ≡ list.now.counts.checks }
    ensures { result ≡ first_bad (mark_fits (list_as list.now) kind marks.now) list.now.counts.checks }
{
    for j in 0..list.counts.checks {
        if !mark_fits(list, kind, marks, j) {
            return j;
        }
    }
    list.counts.checks
}

// The first signal with a written value that is too wide or not known, or the number of signals; e is where its code entries are looked for.
#[tactic(auto, using(paper::proofs::LoopLaws::fails_nowhere))]
fn first_bad_value(list: &AcceptedList, kind: usize, values: &[u64]) -> usize
    requires { length values.now ≡ list.now.counts.signals }
    ensures { result ≡ first_bad (value_fits (list_as list.now) kind values.now) list.now.counts.signals }
{
    let mut e = 0;
    for k in 0..list.counts.signals {
        let own = known::entries_from(list, e, k);
        if !value_fits(list, kind, values, k, own) {
            return k;
        }
        e = own.to;
    }
    list.counts.signals
}

// The first of the refusals 9 and 13 to 16 that applies, for an output of `room` octets.
#[tactic(auto, unfolding(crate::specs::Composing::composing_tests, paper::specs::Answer::refuse_if))]
fn composing_tests(
    list: &AcceptedList,
    kind: usize,
    values: &[u64],
    marks: &[u8],
    room: usize,
) -> Result<(), Refusal>
    ensures { outcome_of result ≡ composing_tests (list_as list.now) kind values.now marks.now room }
{
    if !telegrams::is_type(kind) {
        return Err(Refusal::TelegramType);
    }
    if !((values.len() == list.counts.signals) & (marks.len() == list.counts.checks)) {
        return Err(Refusal::ValuesOrMarks);
    }
    if first_bad_mark(list, kind, marks) < list.counts.checks {
        return Err(Refusal::MarkAbove);
    }
    let k = first_bad_value(list, kind, values);
    if k < list.counts.signals {
        return Err(Refusal::ValueUnfit(k));
    }
    if room != telegrams::type_length(kind) {
        return Err(Refusal::OutputLength);
    }
    Ok(())
}

// The head and the version, then zeros.
fn write_head(out: &mut [u8], kind: usize, version: usize)
    requires { (Room kind (length out.old)) × (version < 256) }
    ensures { out.new ≡ head_of kind version }
{
    out[0] = (16 + kind) as u8;
    out[1] = version as u8;
    octets::fill_zero(out, 2, out.len() - 2);
}

// A field, where it is to be written at all.
fn write_where(out: &mut [u8], written: bool, start: usize, width: usize, v: u64)
    requires { written ≡ true → Within out.old start width }
    ensures { out.new ≡ cond written (put out.old start width v) out.old }
{
    if written {
        octets::write_field(out, start, width, v);
    }
}

// Every signal that the type carries.
#[tactic(auto, using(paper::proofs::PutsLaws::none_put, paper::proofs::PutsLaws::one_put))]
fn write_signals(list: &AcceptedList, kind: usize, values: &[u64], out: &mut [u8])
    requires { (length values.now ≡ list.now.counts.signals) × (Room kind (length out.old)) }
    ensures { out.new ≡ puts (signal_put (list_as list.now) kind values.now) out.old list.now.counts.signals }
{
    for k in 0..list.counts.signals {
        let s = list.signal(k);
        write_where(
            out,
            telegrams::is_carried(kind, s.kind),
            s.start,
            s.width,
            values[k],
        );
    }
}

// Every check within the telegram's length, one that no signal names too.
#[tactic(auto, using(paper::proofs::PutsLaws::none_put, paper::proofs::PutsLaws::one_put))]
fn write_checks(list: &AcceptedList, kind: usize, marks: &[u8], out: &mut [u8])
    requires { (length marks.now ≡ list.now.counts.checks) × (Room kind (length out.old)) }
    ensures { out.new ≡ puts (check_put (list_as list.now) kind marks.now) out.old list.now.counts.checks }
{
    for j in 0..list.counts.checks {
        let place = list.check(j);
        write_where(out, is_within(place, kind), place, 2, marks[j] as u64);
    }
}

// The whole telegram, after every test.
#[tactic(auto, using(crate::proofs::Laws::head_is), unfolding(paper::specs::Composing::composed))]
fn write_telegram(list: &AcceptedList, kind: usize, values: &[u64], marks: &[u8], out: &mut [u8])
    requires { (length values.now ≡ list.now.counts.signals) × (length marks.now ≡ list.now.counts.checks) × (Room kind (length out.old)) }
    ensures { out.new ≡ composed (list_as list.now) kind values.now marks.now }
{
    write_head(out, kind, list.counts.version);
    write_signals(list, kind, values, out);
    write_checks(list, kind, marks, out);
}

// Inner: composing under an accepted list.
#[tactic(auto, using(crate::proofs::Laws::sized))]
pub fn compose_under(
    list: &AcceptedList,
    kind: usize,
    values: &[u64],
    marks: &[u8],
    out: &mut [u8],
) -> Result<(), Refusal>
    ensures { Written (composing_under (list_as list.now) kind values.now marks.now (length out.old)) out.old result out.new }
{
    composing_tests(list, kind, values, marks, out.len())?;
    write_telegram(list, kind, values, marks, out);
    Ok(())
}

// Composes a telegram of type `kind` into `out`. Refused: 1 to 4, then 9 and 13 to 16, and `out` stays as it was.
#[tactic(auto, using(crate::proofs::Laws::written_list, crate::proofs::Laws::written_listed, crate::proofs::Laws::tested_by), unfolding(paper::specs::Composing::composing))]
pub fn compose(
    list: &[u8],
    form: u8,
    kind: usize,
    values: &[u64],
    marks: &[u8],
    out: &mut [u8],
) -> Result<(), Refusal>
    ensures { Written (composing form list.now kind values.now marks.now (length out.old)) out.old result out.new }
{
    let list = AcceptedList::judged(list, form)?;
    compose_under(&list, kind, values, marks, out)
}
