// The refusals of document 01: its number, and what it carries. A new one is a line of the enum and a line of `number`; its words for people stand in
// `words`.
#![tactic(auto)]

ghost use Rattle.std.specs.Prelude.{◌≡◌, ◌+◌, ◌^◌, ◌<◌};
ghost use Rattle.refusals.specs.Refusal.{number_of, carried_of};

// In the order of their numbers, from 1. Those of a list carry the offset of the count, of the entry or of the first octet too many, 15 the signal at fault.
#[derive(Clone, Copy, Debug, PartialEq, Eq)]
pub enum Refusal {
    ListEnds(usize),
    CountAbove(usize),
    EntryBroken(usize),
    OctetsAfter(usize),
    StoreLength,
    Vehicle,
    TelegramShort,
    ApplicationType,
    TelegramType,
    TelegramLength,
    NoSuchSignal,
    DataShort,
    ValuesOrMarks,
    MarkAbove,
    ValueUnfit(usize),
    OutputLength,
    ConsistLength,
    ConsistRule,
    AddressUnlisted,
    NobodyMeets,
    ELength,
    ECode,
    AnswerToReport,
    HeadLength,
    OutputShort,
    ScaledKind,
    NoCheckPlace,
    BlockPast,
    RemedyField,
    KeyTwice,
    RecordsMisfit,
    SerialSet,
    FormOutput,
    Profile(usize),
    DoorMissing,
    DataLengths,
    StepBroken,
    StepsTooMany,
}

impl Refusal {
    // The paper's number.
    pub fn number(self) -> u8
        ensures { result ≡ number_of self }
    {
        match self {
            Refusal::ListEnds(_) => 1,
            Refusal::CountAbove(_) => 2,
            Refusal::EntryBroken(_) => 3,
            Refusal::OctetsAfter(_) => 4,
            Refusal::StoreLength => 5,
            Refusal::Vehicle => 6,
            Refusal::TelegramShort => 7,
            Refusal::ApplicationType => 8,
            Refusal::TelegramType => 9,
            Refusal::TelegramLength => 10,
            Refusal::NoSuchSignal => 11,
            Refusal::DataShort => 12,
            Refusal::ValuesOrMarks => 13,
            Refusal::MarkAbove => 14,
            Refusal::ValueUnfit(_) => 15,
            Refusal::OutputLength => 16,
            Refusal::ConsistLength => 17,
            Refusal::ConsistRule => 18,
            Refusal::AddressUnlisted => 19,
            Refusal::NobodyMeets => 20,
            Refusal::ELength => 21,
            Refusal::ECode => 22,
            Refusal::AnswerToReport => 23,
            Refusal::HeadLength => 24,
            Refusal::OutputShort => 25,
            Refusal::ScaledKind => 26,
            Refusal::NoCheckPlace => 27,
            Refusal::BlockPast => 28,
            Refusal::RemedyField => 29,
            Refusal::KeyTwice => 30,
            Refusal::RecordsMisfit => 31,
            Refusal::SerialSet => 32,
            Refusal::FormOutput => 33,
            Refusal::Profile(_) => 34,
            Refusal::DoorMissing => 35,
            Refusal::DataLengths => 36,
            Refusal::StepBroken => 37,
            Refusal::StepsTooMany => 38,
        }
    }

    // The offset or the signal; 0 where there is none.
    pub fn carried(self) -> usize
        ensures { result ≡ carried_of self }
    {
        match self {
            Refusal::ListEnds(x)
            | Refusal::CountAbove(x)
            | Refusal::EntryBroken(x)
            | Refusal::OctetsAfter(x)
            | Refusal::ValueUnfit(x)
            | Refusal::Profile(x) => x,
            _ => 0,
        }
    }
}

// A refusal of one of the two lists that a call was given.
#[derive(Clone, Copy, Debug, PartialEq, Eq)]
pub enum ListRefused {
    First(Refusal),
    Second(Refusal),
}
