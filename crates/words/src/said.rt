// Document 01's reasons, refusals and places in words.
ghost use Rattle.std.specs.Prelude.{◌≤◌};
ghost use Rattle.saying.specs.Lines.{InRoom};

use gateway::{Refusal, STORE};
use saying::{Line, empty, print, put, say, say_number};

// A store's octets before a slot had a previous stamp.
const OLDER_STORE: usize = 8379;

// A reason by its number; nothing is said of any other.
pub fn say_reason(line: Line, reason: u8) -> Line
    ensures { InRoom line.at result.at }
{
    match reason {
        0 => say(line, b"0 live ok"),
        1 => say(line, b"1 live forced"),
        2 => say(line, b"2 never heard"),
        3 => say(line, b"3 too old"),
        4 => say(line, b"4 type does not carry it"),
        5 => say(line, b"5 newer than the telegram"),
        6 => say(line, b"6 mark error"),
        7 => say(line, b"7 mark undefined"),
        8 => say(line, b"8 code not known"),
        _ => line,
    }
}

// A common signal, type 0, is called R3, as Appendix B lists it.
pub fn say_telegram(line: Line, kind: usize) -> Line
    ensures { InRoom line.at result.at }
{
    match kind {
        0 | 3 => say(line, b"R3"),
        1 => say(line, b"R1"),
        2 => say(line, b"R2"),
        _ => say(line, b"R?"),
    }
}

fn say_octet(line: Line, bit: usize) -> Line
    ensures { InRoom line.at result.at }
{
    say_number(say(line, b"octet "), (bit / 8 + 1) as u64)
}

fn say_octets(line: Line, first: usize, last: usize) -> Line
    ensures { InRoom line.at result.at }
{
    let l = say_number(say(line, b"octets "), (first / 8 + 1) as u64);
    say_number(put(l, b'-'), (last / 8 + 1) as u64)
}

fn say_bits(line: Line, first: usize, last: usize) -> Line
    ensures { InRoom line.at result.at }
{
    let l = say_number(say(say_octet(line, first), b" bits "), (first % 8) as u64);
    say_number(put(l, b'-'), (last % 8) as u64)
}

fn say_bit(line: Line, bit: usize) -> Line
    ensures { InRoom line.at result.at }
{
    say_number(say(say_octet(line, bit), b" bit "), (bit % 8) as u64)
}

fn say_span(line: Line, first: usize, last: usize) -> Line
    ensures { InRoom line.at result.at }
{
    let l = say_number(say(say_bit(line, first), b" to "), (last / 8 + 1) as u64);
    say_number(say(l, b" bit "), (last % 8) as u64)
}

// A field from its first bit to its last, as a person writes it.
fn say_run(line: Line, first: usize, last: usize) -> Line
    ensures { InRoom line.at result.at }
{
    if first == last {
        return say_bit(line, first);
    }
    let is_whole = first % 8 == 0 && last % 8 == 7;
    match (first / 8 == last / 8, is_whole) {
        (true, true) => say_octet(line, first),
        (true, false) => say_bits(line, first, last),
        (false, true) => say_octets(line, first, last),
        (false, false) => say_span(line, first, last),
    }
}

// A field by its start and width. No field of a list lies past bit 2048 or has no bit.
pub fn say_field(line: Line, start: usize, width: usize) -> Line
    ensures { InRoom line.at result.at }
{
    if 65535 < start || 255 < width || width == 0 {
        return say(line, b"nowhere");
    }
    say_run(line, start, start + width - 1)
}

pub fn say_place(line: Line, kind: usize, start: usize, width: usize) -> Line
    ensures { InRoom line.at result.at }
{
    say_field(put(say_telegram(line, kind), b' '), start, width)
}

// A number below a million, its thousands set off by a comma.
fn say_grouped(line: Line, n: u64) -> Line
    ensures { InRoom line.at result.at }
{
    if n < 1000 {
        return say_number(line, n);
    }
    let l = put(say_number(line, n / 1000), b',');
    let l = say_number(l, n / 100 % 10);
    say_number(say_number(l, n / 10 % 10), n % 10)
}

// Of a step of a recording. No program here meets the others that are left.
fn say_step_refusal(line: Line, f: Refusal) -> Line
    ensures { InRoom line.at result.at }
{
    match f {
        Refusal::DataLengths => say(line, b"data areas differ in length"),
        Refusal::StepBroken => say(line, b"step does not follow on"),
        Refusal::StepsTooMany => say(line, b"more than 1,000 steps"),
        _ => say(line, b"see the table of refusals"),
    }
}

// Of a train: its consist, an address in it, the records that describe it, and its doors.
fn say_train_refusal(line: Line, f: Refusal) -> Line
    ensures { InRoom line.at result.at }
{
    match f {
        Refusal::ConsistLength => say(line, b"consist empty or above 63"),
        Refusal::ConsistRule => say(line, b"consist rule broken"),
        Refusal::AddressUnlisted => say(line, b"address not listed"),
        Refusal::NobodyMeets => say(line, b"nobody meets it"),
        Refusal::RecordsMisfit => say(line, b"records not whole, or not as many pairs as records"),
        Refusal::DoorMissing => say(line, b"door signal missing from the list"),
        _ => say_step_refusal(line, f),
    }
}

// Of telegram 8.8A, with remedy texts.
fn say_remedy_refusal(line: Line, f: Refusal) -> Line
    ensures { InRoom line.at result.at }
{
    match f {
        Refusal::ELength => say(line, b"E-telegram length"),
        Refusal::BlockPast => say(line, b"block runs past the end, or octets after the last"),
        Refusal::RemedyField => say(line, b"field out of its range or length that disagrees"),
        Refusal::KeyTwice => say(line, b"key twice"),
        _ => say_train_refusal(line, f),
    }
}

// Of what is written: data, a telegram, a list in the other form, or a list under a profile.
fn say_written_refusal(line: Line, f: Refusal) -> Line
    ensures { InRoom line.at result.at }
{
    match f {
        Refusal::NoSuchSignal => say(line, b"no such signal"),
        Refusal::DataShort => say(line, b"data shorter than a route's end"),
        Refusal::ValuesOrMarks => say(line, b"values or marks not one per entry"),
        Refusal::MarkAbove => say(line, b"a written mark above 3"),
        Refusal::ValueUnfit(_) => say(
            line,
            b"a written value at or above 2^width, or its code not known",
        ),
        Refusal::OutputLength => say(line, b"output length not the type's"),
        Refusal::SerialSet => say(line, b"serial number set"),
        Refusal::FormOutput => say(line, b"output not of the needed length"),
        Refusal::Profile(_) => say(line, b"profile rule broken"),
        _ => say_remedy_refusal(line, f),
    }
}

// Of a list, or of a telegram that is taken into a store.
fn say_refusal(line: Line, f: Refusal) -> Line
    ensures { InRoom line.at result.at }
{
    match f {
        Refusal::ListEnds(_) => say(line, b"list ends inside a count or a section"),
        Refusal::CountAbove(_) => say(line, b"count above its limit"),
        Refusal::EntryBroken(_) => say(line, b"entry breaks its rule"),
        Refusal::OctetsAfter(_) => say(line, b"octets after the routes"),
        Refusal::StoreLength => say(
            say_grouped(say(line, b"store not "), STORE as u64),
            b" octets",
        ),
        Refusal::Vehicle => say(line, b"vehicle not 1-63"),
        Refusal::TelegramShort => say(line, b"R-telegram under 2 octets"),
        Refusal::ApplicationType => say(line, b"application type not 1"),
        Refusal::TelegramType => say(line, b"telegram type not 1-3"),
        Refusal::TelegramLength => say(line, b"length not the type's"),
        _ => say_written_refusal(line, f),
    }
}

// What a refusal carries: an offset, or a signal.
fn say_carried(line: Line, f: Refusal) -> Line
    ensures { InRoom line.at result.at }
{
    match f {
        Refusal::ListEnds(at)
        | Refusal::CountAbove(at)
        | Refusal::EntryBroken(at)
        | Refusal::OctetsAfter(at)
        | Refusal::Profile(at) => say_number(say(line, b" at "), at as u64),
        Refusal::ValueUnfit(signal) => say_number(say(line, b" signal "), signal as u64),
        _ => line,
    }
}

// `of` says which file of several was refused.
pub fn say_refused(f: Refusal, of: &[u8]) -> Line
    ensures { result.at ≤ 240 }
{
    let l = say_number(say(empty(), b"refused "), f.number() as u64);
    say_refusal(say(say(say_carried(l, f), of), b": "), f)
}

// The same of a call that is given a store of so many octets, with what can be said of one of the older layout.
fn say_refused_store_of(f: Refusal, octets: usize, of: &[u8]) -> Line
    ensures { result.at ≤ 240 }
{
    let l = say_refused(f, of);
    if f == Refusal::StoreLength && octets == OLDER_STORE {
        return say(
            l,
            b": it has the 8,379 of the older layout; `take new` makes a new one",
        );
    }
    l
}

pub fn say_refused_store(f: Refusal, octets: usize) -> Line
    ensures { result.at ≤ 240 }
{
    say_refused_store_of(f, octets, b"")
}

pub fn print_refused_store_of(f: Refusal, octets: usize, of: &[u8]) {
    print(say_refused_store_of(f, octets, of));
}

pub fn print_refused_store(f: Refusal, octets: usize) {
    print(say_refused_store(f, octets));
}

pub fn print_refused_of(f: Refusal, of: &[u8]) {
    print(say_refused(f, of));
}

pub fn print_refused(f: Refusal) {
    print_refused_of(f, b"");
}
