//! Scripts: the header, and the check that a whole script reads to its end.
#![tactic(auto)]

ghost use Rattle.std.specs.Prelude.{◌≡◌, IfNone};
ghost use Rattle.script.specs.Errors.{error_number, error_place};
ghost use Rattle.script.specs.Whole.{header_in, header_from, checked_in, check_of};
ghost use Rattle.script.specs.declared.ScriptError.TheVariants.{Bad};

use answer::Refusal;
use drive::Header;
use event_reader::event;
use reader::Reader;

/// The most bytes of a script.
pub const MOST_BYTES: usize = 65_536;

/// A script that cannot be read: the place at which the first failing event starts, or 0 for the header and for an overlong script.
#[derive(Clone, Copy, Debug, PartialEq, Eq)]
pub struct BadScript {
    pub place: usize,
}

/// Why a script and the buffers that are lent beside it come to nothing.
#[derive(Clone, Copy, Debug, PartialEq, Eq)]
pub enum ScriptError {
    /// the script cannot be read
    Bad { place: usize },
    /// a lent buffer is shorter than needed
    ShortBuffer,
}

impl From<BadScript> for ScriptError {
    ghost from_gives = { λ bad error. error ≡ Bad bad.place };

    fn from(bad: BadScript) -> ScriptError {
        ScriptError::Bad { place: bad.place }
    }
}

impl ScriptError {
    /// The error's number in the table of answers, 10 or 11.
    pub fn number(self) -> u8
        ensures { result ≡ error_number self }
    {
        match self {
            ScriptError::Bad { .. } => Refusal::BadScript.number(),
            ScriptError::ShortBuffer => Refusal::ShortBuffer.number(),
        }
    }

    /// The place of a bad script, 0 of a short buffer.
    pub fn place(self) -> usize
        ensures { result ≡ error_place self }
    {
        match self {
            ScriptError::Bad { place } => place,
            ScriptError::ShortBuffer => 0,
        }
    }
}

#[tactic(auto, unfolding(crate::specs::Whole::header_from))]
fn read_header(reader: &mut Reader<'_>) -> Option<Header>
    ensures script { reader.new.script ≡ reader.old.script }
    ensures header { header_in result reader.new.at ≡ header_from reader.old.script.now reader.old.at }
{
    let capacity = reader.number()?;
    let bands = reader.number()?;
    let sensors = reader.number()?;
    let header = Header {
        capacity,
        bands,
        sensors,
    };
    header.fits().then_some(header)
}

/// The header at the reader's place, where it reads and is in range; the reader stays as it was where not.
pub fn header(reader: &mut Reader<'_>) -> Option<Header>
    ensures script { reader.new.script ≡ reader.old.script }
    ensures header { header_in result reader.new.at ≡ header_from reader.old.script.now reader.old.at }
    ensures stays { IfNone result (reader.new.at ≡ reader.old.at) }
{
    let mut ahead = *reader;
    let header = read_header(&mut ahead)?;
    *reader = ahead;
    Some(header)
}

/// How many events there are from the reader's place to the script's end.
fn count_events(mut reader: Reader<'_>) -> Result<usize, BadScript>
    ensures { checked_in result ≡ Rattle.script.specs.Whole.check_from reader.entry.script.now reader.entry.at }
{
    let mut count = 0;
    while !reader.is_at_end() {
        let place = reader.at;
        event(&mut reader).ok_or(BadScript { place })?;
        count += 1;
    }
    Ok(count)
}

/// How many events a script has, or the place of what is bad in it.
pub fn check(script: &[u8]) -> Result<usize, BadScript>
    ensures { checked_in result ≡ check_of script.now }
{
    if MOST_BYTES < script.len() {
        return Err(BadScript { place: 0 });
    }
    let mut reader = Reader::new(script, 0);
    header(&mut reader).ok_or(BadScript { place: 0 })?;
    count_events(reader)
}
