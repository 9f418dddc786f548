//! The names of refusals and faults, and what each says in one sentence.

ghost use Rattle.std.specs.Prelude.{◌≡◌};
ghost use Rattle.regatta_words.specs.Sentences.{refusal_name, refusal_sentence};
ghost use Rattle.regatta_words.specs.Sentences.{fault_name, fault_sentence, role_meaning};

use regatta_terms::{LineFault, Refusal, Role};

/// Every refusal.
pub(crate) const REFUSALS: [Refusal; 16] = [
    Refusal::NoMemory,
    Refusal::JournalFull,
    Refusal::OldNumber { last: 0 },
    Refusal::NotYours,
    Refusal::EntryFull,
    Refusal::AlreadyEntered,
    Refusal::NotEntered,
    Refusal::AlreadyPlaced,
    Refusal::NotPlaced,
    Refusal::Decided,
    Refusal::PenaltyLimit,
    Refusal::NothingToClear,
    Refusal::AlreadyScored,
    Refusal::NotScored,
    Refusal::NoFinisher,
    Refusal::WrongSystem,
];

/// Every fault of a line or an entry.
pub(crate) const FAULTS: [LineFault; 10] = [
    LineFault::TooLong,
    LineFault::NoSuchWord,
    LineFault::WrongCount,
    LineFault::BadSail,
    LineFault::BadRace,
    LineFault::BadPoints,
    LineFault::BadCode,
    LineFault::BadRole,
    LineFault::BadNumber,
    LineFault::BadSeconds,
];

/// Every role.
pub(crate) const ROLES: [Role; 3] = [Role::Finish, Role::Jury, Role::Scorer];

/// The name of a refusal.
pub fn name_of_refusal(refusal: Refusal) -> &'static [u8]
    ensures { result.now ≡ refusal_name refusal }
{
    match refusal {
        Refusal::NoMemory => b"NoMemory",
        Refusal::JournalFull => b"JournalFull",
        Refusal::OldNumber { .. } => b"OldNumber",
        Refusal::NotYours => b"NotYours",
        Refusal::EntryFull => b"EntryFull",
        Refusal::AlreadyEntered => b"AlreadyEntered",
        Refusal::NotEntered => b"NotEntered",
        Refusal::AlreadyPlaced => b"AlreadyPlaced",
        Refusal::NotPlaced => b"NotPlaced",
        Refusal::Decided => b"Decided",
        Refusal::PenaltyLimit => b"PenaltyLimit",
        Refusal::NothingToClear => b"NothingToClear",
        Refusal::AlreadyScored => b"AlreadyScored",
        Refusal::NotScored => b"NotScored",
        Refusal::NoFinisher => b"NoFinisher",
        Refusal::WrongSystem => b"WrongSystem",
    }
}

/// Why the line was refused, in one sentence.
pub(crate) fn sentence_of_refusal(refusal: Refusal) -> &'static [u8]
    ensures { result.now ≡ refusal_sentence refusal }
{
    match refusal {
        Refusal::NoMemory => b"the computer has no memory left for this line",
        Refusal::JournalFull => b"the journal is full: it holds 8,192 entries",
        Refusal::OldNumber { .. } => b"this seat has used up its numbers",
        Refusal::NotYours => b"your role doesn't send this line",
        Refusal::EntryFull => b"500 boats are entered, and no more fit",
        Refusal::AlreadyEntered => b"she is entered already",
        Refusal::NotEntered => b"a boat that is named isn't entered",
        Refusal::AlreadyPlaced => {
            b"she is in the finishing order of this race already: strike her first if she is to be moved"
        }
        Refusal::NotPlaced => b"she, or the other boat, isn't in the finishing order of this race",
        Refusal::Decided => {
            b"she holds DSQ, DNE or redress in this race, and only the jury clears that"
        }
        Refusal::PenaltyLimit => {
            b"she has nine penalties of this kind in this race, and no more fit"
        }
        Refusal::NothingToClear => b"she has no code, penalty or redress in this race",
        Refusal::AlreadyScored => b"this race counts already",
        Refusal::NotScored => b"this race doesn't count",
        Refusal::NoFinisher => b"nobody has finished in this race",
        Refusal::WrongSystem => {
            b"a series by corrected time takes TIME, and any other takes FINISH, TIE and BEFORE"
        }
    }
}

/// The name of a fault.
pub fn name_of_fault(fault: LineFault) -> &'static [u8]
    ensures { result.now ≡ fault_name fault }
{
    match fault {
        LineFault::TooLong => b"TooLong",
        LineFault::NoSuchWord => b"NoSuchWord",
        LineFault::WrongCount => b"WrongCount",
        LineFault::BadSail => b"BadSail",
        LineFault::BadRace => b"BadRace",
        LineFault::BadPoints => b"BadPoints",
        LineFault::BadCode => b"BadCode",
        LineFault::BadRole => b"BadRole",
        LineFault::BadNumber => b"BadNumber",
        LineFault::BadSeconds => b"BadSeconds",
    }
}

/// What is wrong with the line, in one sentence.
pub(crate) fn sentence_of_fault(fault: LineFault) -> &'static [u8]
    ensures { result.now ≡ fault_sentence fault }
{
    match fault {
        LineFault::TooLong => b"the line is longer than 80 letters",
        LineFault::NoSuchWord => {
            b"the line is empty, or its first word isn't known; help lists the lines"
        }
        LineFault::WrongCount => b"the line has too few words, or too many",
        LineFault::BadSail => b"this is no sail: 1 to 12 letters, digits and dashes",
        LineFault::BadRace => b"this is no race: a number from 1 to 40",
        LineFault::BadPoints => {
            b"this is no redress: ALL, PRIOR, or points from 1.0 to 999.9, with one decimal at most"
        }
        LineFault::BadCode => b"this is no code, or no kind of penalty",
        LineFault::BadRole => b"this is no role: FINISH, JURY or SCORER",
        LineFault::BadNumber => {
            b"the entry's seat isn't 1 to 16, or its number isn't 1 to 4,294,967,295"
        }
        LineFault::BadSeconds => b"these are no seconds: a whole number from 0 to 999,999",
    }
}

/// Who sends in the role.
pub(crate) fn meaning_of_role(role: Role) -> &'static [u8]
    ensures { result.now ≡ role_meaning role }
{
    match role {
        Role::Finish => b"the finish",
        Role::Jury => b"the jury",
        Role::Scorer => b"the scorer",
    }
}
