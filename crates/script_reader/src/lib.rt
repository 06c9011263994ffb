//! An accepted script's header and the flat form of its events.
#![tactic(auto)]

ghost use Rattle.std.specs.Prelude.{◌≡◌, ◌≤◌, ◌&&◌, leb, length};
ghost use Rattle.drive.specs.Events.{event_in};
ghost use Rattle.event_form.specs.Form;
ghost use Rattle.script.specs.Parts.{events_from};
ghost use Rattle.script.specs.Whole.{read_script};
ghost use Rattle.script_reader.specs.Read.{read_in, flat_told, WrittenAgain};
ghost use Rattle.script_reader.specs.Parts.{Flattens, Measures};

use drive::{Event, Header};
use reader::Reader;
use script::{BadScript, ScriptError};

/// What a script reads to.
#[derive(Clone, Copy, Debug, PartialEq, Eq)]
pub struct FlatScript {
    pub header: Header,
    /// how many numbers the flat form of the events has
    pub fields: usize,
    /// how many bytes the expressions of the events have
    pub tokens: usize,
}

// How many numbers and bytes the flat form of events has.
#[derive(Clone, Copy)]
struct FlatLength {
    fields: usize,
    tokens: usize,
}

impl FlatLength {
    // Whether both slices have room for so many.
    fn fits(self, fields: &[u64], tokens: &[u8]) -> bool
        ensures { result ≡ (leb self.fields (length fields.now) && leb self.tokens (length tokens.now)) }
    {
        self.fields <= fields.len() && self.tokens <= tokens.len()
    }
}

// The bytes of an event's expression; none where it is no band Set.
fn tokens_of(event: Event<'_>) -> &[u8]
    ensures { result.now ≡ Form.tokens_of (event_in event.entry) }
{
    match event {
        Event::BandSet { tokens, .. } => tokens,
        _ => &[],
    }
}

// The flat form of the events from the reader's place on, from the start of both slices; each slice has it only where it is long enough.
// inlined, so that `measure` only counts
#[inline(always)]
fn flatten(
    mut reader: Reader<'_>,
    fields: &mut [u64],
    tokens: &mut [u8],
) -> Result<FlatLength, BadScript>
    requires { length reader.script.now ≤ 65536 }
    ensures { Flattens (events_from reader.entry.script.now reader.entry.at) result fields.old tokens.old fields.new tokens.new }
{
    let mut length = FlatLength {
        fields: 0,
        tokens: 0,
    };
    while !reader.is_at_end() {
        let place = reader.at;
        let event = event_reader::event(&mut reader).ok_or(BadScript { place })?;
        let numbers = event_form::numbers_of(event);
        let expression = tokens_of(event);
        output::put(fields, length.fields, &numbers.numbers[..numbers.width]);
        output::put(tokens, length.tokens, expression);
        length.fields += numbers.width;
        length.tokens += expression.len();
    }
    Ok(length)
}

// How long the flat form of the events from the reader's place on is: two empty slices are lent.
fn measure(reader: Reader<'_>) -> Result<FlatLength, BadScript>
    requires { length reader.script.now ≤ 65536 }
    ensures { Measures (events_from reader.entry.script.now reader.entry.at) result }
{
    flatten(reader, &mut [], &mut [])
}

/// The header of a script, and the flat form of its events from the start of both slices. A bad script is answered with its place, and then a short buffer
/// where a slice is too short. A refusal leaves both as they were.
pub fn read(script: &[u8], fields: &mut [u64], tokens: &mut [u8]) -> Result<FlatScript, ScriptError>
    ensures tokens_after { read_in result fields.new tokens.new ≡ flat_told (read_script script.now) fields.old tokens.old }
    ensures again { WrittenAgain script.now result fields.new tokens.new }
{
    if script::MOST_BYTES < script.len() {
        return Err(ScriptError::Bad { place: 0 });
    }
    let mut reader = Reader::new(script, 0);
    let header = script::header(&mut reader).ok_or(ScriptError::Bad { place: 0 })?;
    let length = measure(reader)?;
    if !length.fits(fields, tokens) {
        return Err(ScriptError::ShortBuffer);
    }
    flatten(reader, fields, tokens)?;
    Ok(FlatScript {
        header,
        fields: length.fields,
        tokens: length.tokens,
    })
}
