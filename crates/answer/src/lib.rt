//! What an event or a call is turned away for, with the numbers and the words of the table of answers; every promise speaks of the numbers.
#![tactic(auto)]

ghost use Rattle.std.specs.Prelude.{◌≡◌, Some};
ghost use Rattle.answer.specs.Numbers.{number_of, answer_number};
ghost use Rattle.answer.specs.Words.{word_of};

use std::fmt;

/// What an event or a call is turned away for. The answer of one that is done is `Ok`, and has the number 0.
#[derive(Clone, Copy, Debug, PartialEq, Eq)]
pub enum Refusal {
    /// the band or the sensor is not there
    NoRow = 1,
    /// a field exceeds its range
    OutOfRange = 2,
    /// an expression's bytes break the token form
    NotTokens = 3,
    /// an expression has more elements than a row has room for
    TooLong = 4,
    /// a geometry of band 0, which is global
    Global = 5,
    /// blocks past the drive's end
    PastEnd = 6,
    /// two bands would share a block
    Overlap = 7,
    /// an unlock under a TRUE expression
    Held = 8,
    /// a transfer touches a locked block
    Locked = 9,
    /// the script cannot be read
    BadScript = 10,
    /// a lent slice is shorter than needed
    ShortBuffer = 11,
    /// a discovery answer is shorter than it says
    ShortAnswer = 12,
    /// an expression that has no value
    Malformed = 13,
}

impl Refusal {
    /// The refusal's number in the table, 1 to 13.
    pub fn number(self) -> u8
        ensures { result ≡ number_of self }
    {
        self as u8
    }
}

/// The refusal's word in the table.
impl fmt::Display for Refusal {
    ghost output = { λ refusal. Some (word_of refusal) };

    fn fmt<W: fmt::Write>(&self, f: &mut fmt::Formatter<W>) -> fmt::Result {
        f.write_str(match self {
            Refusal::NoRow => "no row",
            Refusal::OutOfRange => "out of range",
            Refusal::NotTokens => "not tokens",
            Refusal::TooLong => "too long",
            Refusal::Global => "global",
            Refusal::PastEnd => "past end",
            Refusal::Overlap => "overlap",
            Refusal::Held => "held",
            Refusal::Locked => "locked",
            Refusal::BadScript => "bad script",
            Refusal::ShortBuffer => "short buffer",
            Refusal::ShortAnswer => "short answer",
            Refusal::Malformed => "malformed",
        })
    }
}

/// The number of an answer, whatever it hands back: 0 where it is done, else the refusal's.
pub fn number<T: Copy>(answer: Result<T, Refusal>) -> u8
    ensures { result ≡ answer_number answer }
{
    match answer {
        Ok(_) => 0,
        Err(refusal) => refusal.number(),
    }
}
