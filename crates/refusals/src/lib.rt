// The refusals that the calls meet, each under its name, and the number that a row gives it.
#![tactic(auto)]

ghost use Rattle.std.specs.Prelude.{◌≡◌, Some};
ghost use Rattle.refusals.specs.Numbers.{refusal_number};
ghost use Rattle.refusals.specs.Inner.Texts.{refusal_text};

use std::error::Error;
use std::fmt;

// Why a call changed nothing.
#[derive(Clone, Copy, Debug, PartialEq, Eq)]
pub enum Refusal {
    // The memory is short, the account is, or the room is.
    NoRoom,
    // The mark is not 0 and the state is not sound, or a figure of the account is above 10^18.
    Unsound,
    // Arming with a mark that is not 0.
    ArmedAlready,
    // The mark is 0.
    NotArmed,
    // The profile is empty, or longer than a profile may be.
    ProfileLength,
    // A line's number of fields, a field's length or characters, or an unknown type.
    Malformed,
    // A line's firm is not that of the first line.
    OtherFirm,
    // A limit or a window.
    OutOfRange,
    // A root with T, or neither.
    LevelClash,
    // Call/put and month do not go together, or stand in a firm rule.
    UnitClash,
    // One rule or root too many.
    TooMany,
    // A time out of range, or below the clock.
    BadTime,
    // A root, unit, rule, level, reset, verdict or identity that is not known.
    Unknown,
    // A premium, contracts or reports out of range.
    BadAmount,
    // The log has fewer places free than are asked for.
    LogFull,
    // No record of a valid event, or no valid event.
    FaultyRecord,
    // As many orders as may be are open away.
    RegisterFull,
    // An order of that identity is open already or, for a report or a closing, is not open.
    IdentityClash,
    // More contracts than are open, or no report left.
    OverReported,
    // A record that does not fit the old form.
    Unfit,
    // A figure of the account would pass 10^18.
    AccountFull,
}

impl Refusal {
    // The number that the row of an answer gives.
    pub fn number(self) -> u64
        ensures { result ≡ refusal_number self }
    {
        match self {
            Refusal::NoRoom => 1,
            Refusal::Unsound => 2,
            Refusal::ArmedAlready => 3,
            Refusal::NotArmed => 4,
            Refusal::ProfileLength => 5,
            Refusal::Malformed => 6,
            Refusal::OtherFirm => 7,
            Refusal::OutOfRange => 8,
            Refusal::LevelClash => 9,
            Refusal::UnitClash => 10,
            Refusal::TooMany => 11,
            Refusal::BadTime => 12,
            Refusal::Unknown => 13,
            Refusal::BadAmount => 14,
            Refusal::LogFull => 15,
            Refusal::FaultyRecord => 16,
            Refusal::RegisterFull => 17,
            Refusal::IdentityClash => 18,
            Refusal::OverReported => 19,
            Refusal::Unfit => 20,
            Refusal::AccountFull => 21,
        }
    }
}

// A refusal in words, whatever options it is printed with.
impl fmt::Display for Refusal {
    ghost output = { λ r. Some (refusal_text r) };

    ghost styled_output = { λ r _. Some (refusal_text r) };

    fn fmt<W: fmt::Write>(&self, f: &mut fmt::Formatter<W>) -> fmt::Result {
        f.write_str(match self {
            Refusal::NoRoom => "the memory, the account or the room is short",
            Refusal::Unsound => "the state is not sound",
            Refusal::ArmedAlready => "the memory is armed already",
            Refusal::NotArmed => "the memory is not armed",
            Refusal::ProfileLength => "the profile is empty or too long",
            Refusal::Malformed => "a line is malformed",
            Refusal::OtherFirm => "a line names another firm",
            Refusal::OutOfRange => "a limit or a window is out of range",
            Refusal::LevelClash => "a line has a root with T, or neither",
            Refusal::UnitClash => "call/put and month do not go together",
            Refusal::TooMany => "there is one rule or root too many",
            Refusal::BadTime => "the time is out of range or below the clock",
            Refusal::Unknown => "there is nothing of that number or name",
            Refusal::BadAmount => "a premium, contracts or reports are out of range",
            Refusal::LogFull => "the log has too few places free",
            Refusal::FaultyRecord => "the record is faulty",
            Refusal::RegisterFull => "the register is full",
            Refusal::IdentityClash => "the identity is open already, or is not open",
            Refusal::OverReported => "more is reported than is open",
            Refusal::Unfit => "the record does not fit the old form",
            Refusal::AccountFull => "a figure of the account would be too large",
        })
    }
}

impl Error for Refusal {}
