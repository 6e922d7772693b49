// The library as C and Rust link it: every public call, with numbers and slices at the boundary and results as plain structs.
// A result's refusal is 0 where the call was not refused, and every field that an answer does not use is 0.
#![tactic(auto)]

ghost use Rattle.std.specs.Prelude.{◌≡◌, ℕ, map, length};
ghost use Rattle.paper.specs.Answer.{gives};
ghost use Rattle.paper.specs.Telegrams.{check_place};
ghost use Rattle.paper.specs.SignalList.{judge as judging};
ghost use Rattle.paper.specs.Profiles.{profiling};
ghost use Rattle.paper.specs.Extends.{extends_lists};
ghost use Rattle.paper.specs.Pairs.{entry_of, finding};
ghost use Rattle.paper.specs.Comparing.{signal_changes, route_changes, codes_gained};
ghost use Rattle.paper.specs.Forms.{serial_of, to_form2, to_form1};
ghost use Rattle.paper.specs.Store.{taking, gapping, sweeping};
ghost use Rattle.paper.specs.Reading.{reading};
ghost use Rattle.paper.specs.Readings.{readings, train_readings};
ghost use Rattle.paper.specs.Marshalling.{marshalling};
ghost use Rattle.paper.specs.Composing.{composing};
ghost use Rattle.paper.specs.Relaying.{relaying};
ghost use Rattle.paper.specs.Shown.{showing};
ghost use Rattle.paper.specs.Train.{resolving};
ghost use Rattle.paper.specs.Christening.{christening, property_of};
ghost use Rattle.paper.specs.Doors.{doors};
ghost use Rattle.paper.specs.Recordings.{checking};
ghost use Rattle.paper.specs.ETelegrams.{e_reading, answering};
ghost use Rattle.paper.specs.Remedies.{area_blocks, remedy_reading, remedy_block, remedy_writing};
ghost use Rattle.refusals.specs.Outcome.{outcome_of};
ghost use Rattle.refusals.specs.Refusal.{number_of, carried_of};
ghost use Rattle.lists.specs.Judged.{judged_answer};
ghost use Rattle.profiles.specs.Profiles.{profile_of};
ghost use Rattle.extending.specs.Extending.{extends_answer};
ghost use Rattle.comparing.specs.Comparing.{changes_answer, gained_answer};
ghost use Rattle.finding.specs.Finding.{entry_answer, found_answer};
ghost use Rattle.forms.specs.Forms.{serial_answer};
ghost use Rattle.store.specs.Store.{gap_answer};
ghost use Rattle.marshalling.specs.Marshalling.{live_answer};
ghost use Rattle.grouping.specs.Place.{place_answer};
ghost use Rattle.reading.specs.Reading.{read_answer};
ghost use Rattle.shown.specs.Show.{kind_of, shown_of, showing_answer};
ghost use Rattle.train.specs.Marks.{vehicle_of, resolved_answer};
ghost use Rattle.records.specs.Records.{pair_of, held_answer, level_as, christened_answer};
ghost use Rattle.doors.specs.Doors.{state_as, summary_answer};
ghost use Rattle.recordings.specs.Recordings.{checked_answer, Low, step_of};
ghost use Rattle.etelegrams.specs.Answers.{e_read_answer};
ghost use Rattle.texts.specs.Texts.{read_answer as remediesAnswer, remedy_answer};
ghost use Rattle.textwriting.specs.Writing.{handed_of, wrote_answer};
ghost use Rattle.dustferrule.specs.Results.{profile_numbered, change_c, range_c, kind_numbered, code_of, unit_of, float_of, outcome_c, judged_c, extending_c, entry_c, found_c, serial_c, gap_c, lives_c, place_c, reading_c, shown_c, members_c, level_c, property_c, christened_c, state_c, doors_c, checked_c, e_read_c, remedies_c, remedy_c, wrote_c, WrittenC, ReadIntoC, DeliveredC, ChristenedC, WroteC};

use doors::{Doors, State};
use gateway::{
    Changed, Counts, EReading, Entry, Kind, Level, ListRefused, Members, Profile, Property, Range,
    Reading, Refusal, Remedies, Remedy, Shown, ShownReading, WrongBit,
};

// A call that only writes.
#[repr(C)]
#[derive(Clone, Copy, Debug, Default, PartialEq)]
pub struct DfOutcome {
    pub refusal: u32,
    pub carried: u64,
}

#[repr(C)]
#[derive(Clone, Copy, Debug, Default, PartialEq)]
pub struct DfJudged {
    pub refusal: u32,
    pub carried: u64,
    pub checks: u64,
    pub signals: u64,
    pub codes: u64,
    pub routes: u64,
    pub version: u64,
}

// Which list was refused.
const FIRST: u32 = 1;

const SECOND: u32 = 2;

// which: 1 the first list was refused, 2 the second; extends: 1 yes, 0 no.
#[repr(C)]
#[derive(Clone, Copy, Debug, Default, PartialEq)]
pub struct DfExtending {
    pub refusal: u32,
    pub which: u32,
    pub carried: u64,
    pub extends: u32,
}

// which: as above; found: 1 a difference, 0 there is none more; breaks: the rule of extending that it breaks, 0 for none.
#[repr(C)]
#[derive(Clone, Copy, Debug, Default, PartialEq)]
pub struct DfChange {
    pub refusal: u32,
    pub which: u32,
    pub carried: u64,
    pub found: u32,
    pub breaks: u64,
    pub key: u64,
    pub first: u64,
    pub second: u64,
}

// Codes, from low to high.
#[repr(C)]
#[derive(Clone, Copy, Debug, Default, PartialEq)]
pub struct DfRange {
    pub refusal: u32,
    pub which: u32,
    pub carried: u64,
    pub found: u32,
    pub low: u64,
    pub high: u64,
}

// A signal's entry, kind being the paper's type, and the place of its check, 0 for none.
#[repr(C)]
#[derive(Clone, Copy, Debug, Default, PartialEq)]
pub struct DfEntry {
    pub refusal: u32,
    pub carried: u64,
    pub start: u64,
    pub width: u64,
    pub kind: u64,
    pub check: u64,
    pub since: u64,
    pub limit: u64,
    pub replacement: u64,
    pub place: u64,
}

#[repr(C)]
#[derive(Clone, Copy, Debug, Default, PartialEq)]
pub struct DfFound {
    pub refusal: u32,
    pub carried: u64,
    pub signal: u64,
}

#[repr(C)]
#[derive(Clone, Copy, Debug, Default, PartialEq)]
pub struct DfSerial {
    pub refusal: u32,
    pub carried: u64,
    pub serial: u64,
}

#[repr(C)]
#[derive(Clone, Copy, Debug, Default, PartialEq)]
pub struct DfGap {
    pub refusal: u32,
    pub gap: u32,
}

#[repr(C)]
#[derive(Clone, Copy, Debug, Default, PartialEq)]
pub struct DfMarshalled {
    pub refusal: u32,
    pub carried: u64,
    pub lives: u64,
}

#[repr(C)]
#[derive(Clone, Copy, Debug, Default, PartialEq)]
pub struct DfPlace {
    pub refusal: u32,
    pub place: u64,
}

#[repr(C)]
#[derive(Clone, Copy, Debug, Default, PartialEq)]
pub struct DfReading {
    pub refusal: u32,
    pub reason: u32,
    pub carried: u64,
    pub value: u64,
}

#[repr(C)]
#[derive(Clone, Copy, Debug, Default, PartialEq)]
pub struct DfShown {
    pub refusal: u32,
    pub reason: u32,
    pub carried: u64,
    pub code: u64,
    pub unit: u32,
    pub value: f32,
}

#[repr(C)]
#[derive(Clone, Copy, Debug, Default, PartialEq)]
pub struct DfMembers {
    pub refusal: u32,
    pub size: u32,
    pub set: u64,
}

// found: 1 a row of table E.1, 0 there is none of this number; level: 0 gateway, 1 vehicle; its place; holds: 1 the bit is set.
#[repr(C)]
#[derive(Clone, Copy, Debug, Default, PartialEq)]
pub struct DfProperty {
    pub found: u32,
    pub level: u32,
    pub octet: u32,
    pub bit: u32,
    pub holds: u32,
}

// vehicles: how many marks were written.
#[repr(C)]
#[derive(Clone, Copy, Debug, Default, PartialEq)]
pub struct DfChristened {
    pub refusal: u32,
    pub vehicles: u64,
}

// left, right: 0 not known, 1 locked, 2 open; the vehicles that kept the side from locked, as in DfMembers.
#[repr(C)]
#[derive(Clone, Copy, Debug, Default, PartialEq)]
pub struct DfDoors {
    pub refusal: u32,
    pub left: u32,
    pub carried: u64,
    pub left_set: u64,
    pub left_size: u32,
    pub right: u32,
    pub right_set: u64,
    pub right_size: u32,
}

// right: 1 the data after are what our rules give, 0 refused, or a bit is wrong: bit 0-7 of this octet from 0 is the first; in_route: 1 it lies in this route, whose
// reading has this reason, 0 in none.
#[repr(C)]
#[derive(Clone, Copy, Debug, Default, PartialEq)]
pub struct DfChecked {
    pub refusal: u32,
    pub right: u32,
    pub carried: u64,
    pub octet: u64,
    pub bit: u32,
    pub in_route: u32,
    pub route: u64,
    pub reason: u32,
}

#[repr(C)]
#[derive(Clone, Copy, Debug, Default, PartialEq)]
pub struct DfERead {
    pub refusal: u32,
    pub code: u32,
    pub report: u32,
    pub status: u32,
}

// What a telegram with remedy texts says beside its blocks; ordered: octet 23.
#[repr(C)]
#[derive(Clone, Copy, Debug, Default, PartialEq)]
pub struct DfRemedies {
    pub refusal: u32,
    pub language: u32,
    pub ordered: u32,
    pub count: u32,
}

// found: 1 a block, 0 there is none more; at, size: where its text stands in the telegram, counted from 0, and its octets.
#[repr(C)]
#[derive(Clone, Copy, Debug, Default, PartialEq)]
pub struct DfRemedy {
    pub refusal: u32,
    pub found: u32,
    pub key: u32,
    pub at: u64,
    pub size: u64,
}

// size: the octets that were written.
#[repr(C)]
#[derive(Clone, Copy, Debug, Default, PartialEq)]
pub struct DfWrote {
    pub refusal: u32,
    pub size: u64,
}

impl From<Result<(), Refusal>> for DfOutcome {
    ghost from_gives = { λ r d. d ≡ outcome_c (outcome_of r) };

    fn from(answer: Result<(), Refusal>) -> DfOutcome {
        match answer {
            Ok(()) => DfOutcome::default(),
            Err(f) => DfOutcome {
                refusal: f.number().into(),
                carried: f.carried() as u64,
            },
        }
    }
}

impl From<Result<Counts, Refusal>> for DfJudged {
    ghost from_gives = { λ r d. d ≡ judged_c (judged_answer r) };

    fn from(answer: Result<Counts, Refusal>) -> DfJudged {
        match answer {
            Ok(n) => DfJudged {
                checks: n.checks as u64,
                signals: n.signals as u64,
                codes: n.codes as u64,
                routes: n.routes as u64,
                version: n.version as u64,
                ..DfJudged::default()
            },
            Err(f) => DfJudged {
                refusal: f.number().into(),
                carried: f.carried() as u64,
                ..DfJudged::default()
            },
        }
    }
}

fn extending_refused(f: Refusal, which: u32) -> DfExtending
    ensures { result ≡ record { refusal = number_of f; which = which; carried = carried_of f; extends = 0 } }
{
    DfExtending {
        refusal: f.number().into(),
        which,
        carried: f.carried() as u64,
        ..DfExtending::default()
    }
}

impl From<Result<bool, ListRefused>> for DfExtending {
    ghost from_gives = { λ r d. d ≡ extending_c (extends_answer r) };

    fn from(answer: Result<bool, ListRefused>) -> DfExtending {
        match answer {
            Ok(extends) => DfExtending {
                extends: extends.into(),
                ..DfExtending::default()
            },
            Err(ListRefused::First(f)) => extending_refused(f, FIRST),
            Err(ListRefused::Second(f)) => extending_refused(f, SECOND),
        }
    }
}

impl From<Result<Option<Changed>, ListRefused>> for DfChange {
    ghost from_gives = { λ r d. d ≡ change_c (changes_answer r) };

    fn from(answer: Result<Option<Changed>, ListRefused>) -> DfChange {
        match answer {
            Ok(Some(c)) => DfChange {
                found: 1,
                breaks: c.breaks as u64,
                key: c.key as u64,
                first: c.first as u64,
                second: c.second as u64,
                ..DfChange::default()
            },
            Ok(None) => DfChange::default(),
            Err(ListRefused::First(f)) => DfChange {
                refusal: f.number().into(),
                which: FIRST,
                carried: f.carried() as u64,
                ..DfChange::default()
            },
            Err(ListRefused::Second(f)) => DfChange {
                refusal: f.number().into(),
                which: SECOND,
                carried: f.carried() as u64,
                ..DfChange::default()
            },
        }
    }
}

impl From<Result<Option<Range>, ListRefused>> for DfRange {
    ghost from_gives = { λ r d. d ≡ range_c (gained_answer r) };

    fn from(answer: Result<Option<Range>, ListRefused>) -> DfRange {
        match answer {
            Ok(Some(c)) => DfRange {
                found: 1,
                low: c.low as u64,
                high: c.high as u64,
                ..DfRange::default()
            },
            Ok(None) => DfRange::default(),
            Err(ListRefused::First(f)) => DfRange {
                refusal: f.number().into(),
                which: FIRST,
                carried: f.carried() as u64,
                ..DfRange::default()
            },
            Err(ListRefused::Second(f)) => DfRange {
                refusal: f.number().into(),
                which: SECOND,
                carried: f.carried() as u64,
                ..DfRange::default()
            },
        }
    }
}

impl From<Result<Entry, Refusal>> for DfEntry {
    ghost from_gives = { λ r d. d ≡ entry_c (entry_answer r) };

    fn from(answer: Result<Entry, Refusal>) -> DfEntry {
        match answer {
            Ok(e) => DfEntry {
                start: e.signal.start as u64,
                width: e.signal.width as u64,
                kind: e.signal.kind as u64,
                check: e.signal.check as u64,
                since: e.signal.since as u64,
                limit: e.signal.limit,
                replacement: e.signal.replacement,
                place: e.place as u64,
                ..DfEntry::default()
            },
            Err(f) => DfEntry {
                refusal: f.number().into(),
                carried: f.carried() as u64,
                ..DfEntry::default()
            },
        }
    }
}

impl From<Result<usize, Refusal>> for DfFound {
    ghost from_gives = { λ r d. d ≡ found_c (found_answer r) };

    fn from(answer: Result<usize, Refusal>) -> DfFound {
        match answer {
            Ok(k) => DfFound {
                signal: k as u64,
                ..DfFound::default()
            },
            Err(f) => DfFound {
                refusal: f.number().into(),
                carried: f.carried() as u64,
                ..DfFound::default()
            },
        }
    }
}

impl From<Result<usize, Refusal>> for DfSerial {
    ghost from_gives = { λ r d. d ≡ serial_c (serial_answer r) };

    fn from(answer: Result<usize, Refusal>) -> DfSerial {
        match answer {
            Ok(serial) => DfSerial {
                serial: serial as u64,
                ..DfSerial::default()
            },
            Err(f) => DfSerial {
                refusal: f.number().into(),
                carried: f.carried() as u64,
                ..DfSerial::default()
            },
        }
    }
}

impl From<Result<u32, Refusal>> for DfGap {
    ghost from_gives = { λ r d. d ≡ gap_c (gap_answer r) };

    fn from(answer: Result<u32, Refusal>) -> DfGap {
        match answer {
            Ok(gap) => DfGap {
                gap,
                ..DfGap::default()
            },
            Err(f) => DfGap {
                refusal: f.number().into(),
                ..DfGap::default()
            },
        }
    }
}

impl From<Result<usize, Refusal>> for DfMarshalled {
    ghost from_gives = { λ r d. d ≡ lives_c (live_answer r) };

    fn from(answer: Result<usize, Refusal>) -> DfMarshalled {
        match answer {
            Ok(lives) => DfMarshalled {
                lives: lives as u64,
                ..DfMarshalled::default()
            },
            Err(f) => DfMarshalled {
                refusal: f.number().into(),
                carried: f.carried() as u64,
                ..DfMarshalled::default()
            },
        }
    }
}

impl From<Result<usize, Refusal>> for DfPlace {
    ghost from_gives = { λ r d. d ≡ place_c (place_answer r) };

    fn from(answer: Result<usize, Refusal>) -> DfPlace {
        match answer {
            Ok(place) => DfPlace {
                place: place as u64,
                ..DfPlace::default()
            },
            Err(f) => DfPlace {
                refusal: f.number().into(),
                ..DfPlace::default()
            },
        }
    }
}

impl From<Result<Reading, Refusal>> for DfReading {
    ghost from_gives = { λ r d. d ≡ reading_c (read_answer r) };

    fn from(answer: Result<Reading, Refusal>) -> DfReading {
        match answer {
            Ok(r) => DfReading {
                reason: r.reason.number().into(),
                value: r.value,
                ..DfReading::default()
            },
            Err(f) => DfReading {
                refusal: f.number().into(),
                carried: f.carried() as u64,
                ..DfReading::default()
            },
        }
    }
}

// The profile by its number: any but 2 is the plain coaches'.
fn profile_of(n: u8) -> Profile
    ensures { profile_of result ≡ profile_numbered n }
{
    match n {
        2 => Profile::DrivingTrailer,
        _ => Profile::PlainCoach,
    }
}

// The kind by its number: any but 1 to 4 is the code.
fn kind_of(n: u8) -> Kind
    ensures { kind_of result ≡ kind_numbered n }
{
    match n {
        1 => Kind::Speed,
        2 => Kind::Percentage,
        3 => Kind::SignedPercentage,
        4 => Kind::Current,
        _ => Kind::Code,
    }
}

fn code_of(s: Shown) -> u64
    ensures { result ≡ code_of (shown_of s) }
{
    match s {
        Shown::Code(c) => c,
        Shown::Speed(_) => 0,
        Shown::Percentage(_) => 0,
        Shown::Current(_) => 0,
    }
}

// 0 a code, 1 km/h, 2 %, 3 A.
fn unit_of(s: Shown) -> u32
    ensures { result ≡ unit_of (shown_of s) }
{
    match s {
        Shown::Code(_) => 0,
        Shown::Speed(_) => 1,
        Shown::Percentage(_) => 2,
        Shown::Current(_) => 3,
    }
}

fn float_of(s: Shown) -> f32
    ensures { result ≡ float_of (shown_of s) }
{
    match s {
        Shown::Code(_) => 0.0,
        Shown::Speed(x) => x,
        Shown::Percentage(x) => x,
        Shown::Current(x) => x,
    }
}

impl From<Result<ShownReading, Refusal>> for DfShown {
    ghost from_gives = { λ r d. d ≡ shown_c (showing_answer r) };

    fn from(answer: Result<ShownReading, Refusal>) -> DfShown {
        match answer {
            Ok(r) => DfShown {
                reason: r.reason.number().into(),
                code: code_of(r.shown),
                unit: unit_of(r.shown),
                value: float_of(r.shown),
                ..DfShown::default()
            },
            Err(f) => DfShown {
                refusal: f.number().into(),
                carried: f.carried() as u64,
                ..DfShown::default()
            },
        }
    }
}

impl From<Result<Members, Refusal>> for DfMembers {
    ghost from_gives = { λ r d. d ≡ members_c (resolved_answer r) };

    fn from(answer: Result<Members, Refusal>) -> DfMembers {
        match answer {
            Ok(m) => DfMembers {
                size: m.size,
                set: m.set,
                ..DfMembers::default()
            },
            Err(f) => DfMembers {
                refusal: f.number().into(),
                ..DfMembers::default()
            },
        }
    }
}

fn level_c(l: Level) -> u32
    ensures { result ≡ level_c (level_as l) }
{
    match l {
        Level::Gateway => 0,
        Level::Vehicle => 1,
    }
}

impl From<Option<Property>> for DfProperty {
    ghost from_gives = { λ p d. (row : ℕ) → d ≡ property_c (held_answer row p) };

    fn from(answer: Option<Property>) -> DfProperty {
        match answer {
            Some(p) => DfProperty {
                found: 1,
                level: level_c(p.level),
                octet: p.octet.into(),
                bit: p.bit.into(),
                holds: p.holds.into(),
            },
            None => DfProperty::default(),
        }
    }
}

impl From<Result<usize, Refusal>> for DfChristened {
    ghost from_gives = { λ r d. d ≡ christened_c (christened_answer r) };

    fn from(answer: Result<usize, Refusal>) -> DfChristened {
        match answer {
            Ok(vehicles) => DfChristened {
                vehicles: vehicles as u64,
                ..DfChristened::default()
            },
            Err(f) => DfChristened {
                refusal: f.number().into(),
                ..DfChristened::default()
            },
        }
    }
}

fn state_c(s: State) -> u32
    ensures { result ≡ state_c (state_as s) }
{
    match s {
        State::Unknown => 0,
        State::Locked => 1,
        State::Open => 2,
    }
}

impl From<Result<Doors, Refusal>> for DfDoors {
    ghost from_gives = { λ r d. d ≡ doors_c (summary_answer r) };

    fn from(answer: Result<Doors, Refusal>) -> DfDoors {
        match answer {
            Ok(d) => DfDoors {
                left: state_c(d.left.state),
                left_set: d.left.kept,
                left_size: d.left.size,
                right: state_c(d.right.state),
                right_set: d.right.kept,
                right_size: d.right.size,
                ..DfDoors::default()
            },
            Err(f) => DfDoors {
                refusal: f.number().into(),
                carried: f.carried() as u64,
                ..DfDoors::default()
            },
        }
    }
}

// No `From`, which could not ask that the bit is below 8.
fn checked_c(checked: Result<Option<WrongBit>, Refusal>) -> DfChecked
    requires { Low checked }
    ensures { result ≡ checked_c (checked_answer checked) }
{
    match checked {
        Ok(None) => DfChecked {
            right: 1,
            ..DfChecked::default()
        },
        Ok(Some(w)) => {
            let place = DfChecked {
                octet: w.octet as u64,
                bit: w.bit as u32,
                ..DfChecked::default()
            };
            match w.route {
                Some(r) => DfChecked {
                    in_route: 1,
                    route: r.route as u64,
                    reason: r.reason.number().into(),
                    ..place
                },
                None => place,
            }
        }
        Err(f) => DfChecked {
            refusal: f.number().into(),
            carried: f.carried() as u64,
            ..DfChecked::default()
        },
    }
}

impl From<Result<EReading, Refusal>> for DfERead {
    ghost from_gives = { λ r d. d ≡ e_read_c (e_read_answer r) };

    fn from(answer: Result<EReading, Refusal>) -> DfERead {
        match answer {
            Ok(e) => DfERead {
                code: e.code.into(),
                report: e.report.into(),
                status: e.status.into(),
                ..DfERead::default()
            },
            Err(f) => DfERead {
                refusal: f.number().into(),
                ..DfERead::default()
            },
        }
    }
}

impl From<Result<Remedies, Refusal>> for DfRemedies {
    ghost from_gives = { λ r d. d ≡ remedies_c (remediesAnswer r) };

    fn from(answer: Result<Remedies, Refusal>) -> DfRemedies {
        match answer {
            Ok(x) => DfRemedies {
                language: x.language.into(),
                ordered: x.ordered.into(),
                count: x.count.into(),
                ..DfRemedies::default()
            },
            Err(f) => DfRemedies {
                refusal: f.number().into(),
                ..DfRemedies::default()
            },
        }
    }
}

impl From<Result<Option<Remedy>, Refusal>> for DfRemedy {
    ghost from_gives = { λ r d. d ≡ remedy_c (remedy_answer r) };

    fn from(answer: Result<Option<Remedy>, Refusal>) -> DfRemedy {
        match answer {
            Ok(Some(b)) => DfRemedy {
                found: 1,
                key: b.key.into(),
                at: b.at as u64,
                size: b.size as u64,
                ..DfRemedy::default()
            },
            Ok(None) => DfRemedy::default(),
            Err(f) => DfRemedy {
                refusal: f.number().into(),
                ..DfRemedy::default()
            },
        }
    }
}

impl From<Result<usize, Refusal>> for DfWrote {
    ghost from_gives = { λ r d. d ≡ wrote_c (wrote_answer r) };

    fn from(answer: Result<usize, Refusal>) -> DfWrote {
        match answer {
            Ok(size) => DfWrote {
                size: size as u64,
                ..DfWrote::default()
            },
            Err(f) => DfWrote {
                refusal: f.number().into(),
                ..DfWrote::default()
            },
        }
    }
}

#[unsafe(no_mangle)]
pub extern "C" fn df_judge(list: &[u8], form: u8) -> DfJudged
    ensures { result ≡ judged_c (judging form list.now) }
{
    gateway::judge(list, form).into()
}

#[unsafe(no_mangle)]
pub extern "C" fn df_judge_profile(profile: u8, list: &[u8], form: u8) -> DfJudged
    ensures { result ≡ judged_c (profiling (profile_numbered profile) form list.now) }
{
    gateway::judge_profile(profile_of(profile), list, form).into()
}

#[unsafe(no_mangle)]
pub extern "C" fn df_extends(a: &[u8], form: u8, b: &[u8], other: u8) -> DfExtending
    ensures { result ≡ extending_c (extends_lists form a.now other b.now) }
{
    gateway::extends(a, form, b, other).into()
}

#[unsafe(no_mangle)]
pub extern "C" fn df_signal_change(a: &[u8], form: u8, b: &[u8], other: u8, from: u64) -> DfChange
    ensures { result ≡ change_c (signal_changes form a.now other b.now from) }
{
    gateway::signal_change(a, form, b, other, from as usize).into()
}

#[unsafe(no_mangle)]
pub extern "C" fn df_route_change(a: &[u8], form: u8, b: &[u8], other: u8, from: u64) -> DfChange
    ensures { result ≡ change_c (route_changes form a.now other b.now from) }
{
    gateway::route_change(a, form, b, other, from as usize).into()
}

#[unsafe(no_mangle)]
pub extern "C" fn df_codes_gained(
    a: &[u8],
    form: u8,
    b: &[u8],
    other: u8,
    key: u64,
    from: u64,
) -> DfRange
    ensures { result ≡ range_c (codes_gained form a.now other b.now key from) }
{
    gateway::codes_gained(a, form, b, other, key as usize, from as usize).into()
}

#[unsafe(no_mangle)]
pub extern "C" fn df_signal_entry(list: &[u8], form: u8, signal: u64) -> DfEntry
    ensures { result ≡ entry_c (entry_of form list.now signal) }
{
    gateway::signal_entry(list, form, signal as usize).into()
}

#[unsafe(no_mangle)]
pub extern "C" fn df_find_signal(list: &[u8], form: u8, kind: u64, start: u64) -> DfFound
    ensures { result ≡ found_c (finding form list.now kind start) }
{
    gateway::find_signal(list, form, kind as usize, start as usize).into()
}

#[unsafe(no_mangle)]
pub extern "C" fn df_serial(list: &[u8], form: u8, signal: u64) -> DfSerial
    ensures { result ≡ serial_c (serial_of form list.now signal) }
{
    gateway::serial_of(list, form, signal as usize).into()
}

#[unsafe(no_mangle)]
pub extern "C" fn df_to_form_2(list: &[u8], out: &mut [u8]) -> DfOutcome
    ensures { WrittenC (to_form2 list.now (length out.old)) out.old result out.new }
{
    gateway::to_form_2(list, out).into()
}

#[unsafe(no_mangle)]
pub extern "C" fn df_to_form_1(list: &[u8], out: &mut [u8]) -> DfOutcome
    ensures { WrittenC (to_form1 list.now (length out.old)) out.old result out.new }
{
    gateway::to_form_1(list, out).into()
}

#[unsafe(no_mangle)]
pub extern "C" fn df_check_place(bit: u64) -> DfPlace
    ensures { result ≡ place_c (check_place bit) }
{
    gateway::check_place(bit).into()
}

#[unsafe(no_mangle)]
pub extern "C" fn df_take(store: &mut [u8], vehicle: u64, clock: u32, telegram: &[u8]) -> DfOutcome
    ensures { WrittenC (taking store.old vehicle clock telegram.now) store.old result store.new }
{
    gateway::take(store, vehicle as usize, clock, telegram).into()
}

#[unsafe(no_mangle)]
pub extern "C" fn df_gap(store: &[u8], vehicle: u64) -> DfGap
    ensures { result ≡ gap_c (gapping store.now vehicle) }
{
    gateway::gap(store, vehicle as usize).into()
}

#[unsafe(no_mangle)]
pub extern "C" fn df_sweep(store: &mut [u8], clock: u32) -> DfOutcome
    ensures { WrittenC (sweeping store.old clock) store.old result store.new }
{
    gateway::sweep(store, clock).into()
}

#[unsafe(no_mangle)]
pub extern "C" fn df_read(
    list: &[u8],
    form: u8,
    store: &[u8],
    clock: u32,
    vehicle: u64,
    signal: u64,
) -> DfReading
    ensures { result ≡ reading_c (reading form list.now store.now clock vehicle signal) }
{
    gateway::read(list, form, store, clock, vehicle as usize, signal as usize).into()
}

#[unsafe(no_mangle)]
pub extern "C" fn df_read_all(
    list: &[u8],
    form: u8,
    store: &[u8],
    clock: u32,
    vehicle: u64,
    values: &mut [u64],
    reasons: &mut [u8],
) -> DfOutcome
    ensures { ReadIntoC (readings form list.now store.now clock vehicle (length values.old) (length reasons.old)) values.old reasons.old result values.new reasons.new }
{
    gateway::read_all(list, form, store, clock, vehicle as usize, values, reasons).into()
}

#[unsafe(no_mangle)]
pub extern "C" fn df_read_train(
    list: &[u8],
    form: u8,
    store: &[u8],
    clock: u32,
    last: u64,
    values: &mut [u64],
    reasons: &mut [u8],
) -> DfOutcome
    ensures { ReadIntoC (train_readings form list.now store.now clock last (length values.old) (length reasons.old)) values.old reasons.old result values.new reasons.new }
{
    gateway::read_train(list, form, store, clock, last as usize, values, reasons).into()
}

#[unsafe(no_mangle)]
pub extern "C" fn df_marshal(
    list: &[u8],
    form: u8,
    store: &[u8],
    clock: u32,
    bus: &mut [u8],
) -> DfMarshalled
    ensures { DeliveredC (marshalling form list.now store.now clock bus.old) bus.old result bus.new }
{
    gateway::marshal(list, form, store, clock, bus).into()
}

#[unsafe(no_mangle)]
pub extern "C" fn df_compose(
    list: &[u8],
    form: u8,
    kind: u64,
    values: &[u64],
    marks: &[u8],
    out: &mut [u8],
) -> DfOutcome
    ensures { WrittenC (composing form list.now kind values.now marks.now (length out.old)) out.old result out.new }
{
    gateway::compose(list, form, kind as usize, values, marks, out).into()
}

#[unsafe(no_mangle)]
pub extern "C" fn df_relay(
    list: &[u8],
    form: u8,
    store: &[u8],
    clock: u32,
    vehicle: u64,
    out: &mut [u8],
) -> DfOutcome
    ensures { WrittenC (relaying form list.now store.now clock vehicle (length out.old)) out.old result out.new }
{
    gateway::relay(list, form, store, clock, vehicle as usize, out).into()
}

#[unsafe(no_mangle)]
pub extern "C" fn df_show(
    list: &[u8],
    form: u8,
    store: &[u8],
    clock: u32,
    vehicle: u64,
    signal: u64,
    kind: u8,
) -> DfShown
    ensures { result ≡ shown_c (showing form list.now store.now clock vehicle signal (kind_numbered kind)) }
{
    gateway::show(
        list,
        form,
        store,
        clock,
        vehicle as usize,
        signal as usize,
        kind_of(kind),
    )
    .into()
}

#[unsafe(no_mangle)]
pub extern "C" fn df_resolve(marks: &[u8], address: u64) -> DfMembers
    ensures { result ≡ members_c (resolving (map vehicle_of marks.now) address) }
{
    gateway::resolve(marks, address).into()
}

#[unsafe(no_mangle)]
pub extern "C" fn df_property(octets: &[u8; 56], row: u32) -> DfProperty
    ensures { result ≡ property_c (property_of octets.now row) }
{
    gateway::property_of(octets, row).into()
}

#[unsafe(no_mangle)]
pub extern "C" fn df_christen(records: &[u8], pairs: &[u8], marks: &mut [u8; 63]) -> DfChristened
    ensures { ChristenedC (christening records.now (map pair_of pairs.now)) marks.old result marks.new }
{
    gateway::christen(records, pairs, marks).into()
}

#[unsafe(no_mangle)]
pub extern "C" fn df_check_step(
    list: &[u8],
    form: u8,
    steps: usize,
    last: &[u8],
    store: &[u8],
    clock: u32,
    before: &[u8],
    after: &[u8],
) -> DfChecked
    ensures { result ≡ checked_c (checking form list.now steps last.now (step_of store.now clock before.now after.now)) }
{
    checked_c(gateway::check_step(list, form, steps, last, store, clock, before, after))
}

#[unsafe(no_mangle)]
pub extern "C" fn df_doors(
    list: &[u8],
    form: u8,
    store: &[u8],
    clock: u32,
    marks: &[u8],
    address: u64,
) -> DfDoors
    ensures { result ≡ doors_c (doors form list.now store.now clock (map vehicle_of marks.now) address) }
{
    doors::summary(list, form, store, clock, marks, address).into()
}

#[unsafe(no_mangle)]
pub extern "C" fn df_e_read(telegram: &[u8]) -> DfERead
    ensures { result ≡ e_read_c (e_reading telegram.now) }
{
    gateway::e_read(telegram).into()
}

#[unsafe(no_mangle)]
pub extern "C" fn df_e_answer(telegram: &[u8], head: &[u8], status: u8, out: &mut [u8]) -> DfOutcome
    ensures { WrittenC (answering telegram.now head.now status out.old) out.old result out.new }
{
    gateway::e_answer(telegram, head, status, out).into()
}

#[unsafe(no_mangle)]
pub extern "C" fn df_read_remedies(telegram: &[u8]) -> DfRemedies
    ensures { result ≡ remedies_c (remedy_reading telegram.now) }
{
    gateway::read_remedies(telegram).into()
}

#[unsafe(no_mangle)]
pub extern "C" fn df_remedy_block(telegram: &[u8], block: usize) -> DfRemedy
    ensures { result ≡ remedy_c (remedy_block telegram.now block) }
{
    gateway::remedy_block(telegram, block).into()
}

#[unsafe(no_mangle)]
pub extern "C" fn df_write_remedies(
    head: &[u8; 6],
    carried: &[u8; 12],
    language: u16,
    ordered: u8,
    keys: &[u8],
    lengths: &[u16],
    texts: &[u8],
    out: &mut [u8],
) -> DfWrote
    ensures { WroteC (remedy_writing (handed_of head.now carried.now language ordered (area_blocks keys.now lengths.now texts.now)) out.old) out.old result out.new }
{
    gateway::write_area(head, carried, language, ordered, keys, lengths, texts, out).into()
}
