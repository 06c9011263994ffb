//! The functions that programs in other languages link: numbers and slices of numbers, and every result a number. A result beside the
//! answer is written through a `&mut` of its own, and a refusal leaves what was there.
// stays: (1) numbers in place of enums, a `&mut` for each result, parameters that travel together: all this is the C interface
#![tactic(auto)]

ghost use Rattle.std.specs.Prelude.{◌≡◌, ℕ, List, cond, eqb, Ok};
ghost use Rattle.answer.specs.Numbers.{number_of};
ghost use Rattle.output.specs.Filling.{told, told_in, filled_by};
ghost use Rattle.token_reader.specs.Read.{read_tokens};
ghost use Rattle.numbers.specs.Groups.{bad_script};
ghost use Rattle.drive.specs.Events.{event_in};
ghost use Rattle.script.specs.Errors.{error_number, error_place};
ghost use Rattle.script.specs.Whole.{read_script};
ghost use Rattle.event_form.specs.Parts.{events_of};
ghost use Rattle.script_writer.specs.Write.{script_told};
ghost use Rattle.script_reader.specs.Read.{read_to, flat_told};
ghost use Rattle.run.specs.Outcome.{run_script};
ghost use Rattle.report.specs.Listing.{listing};
ghost use Rattle.api.specs.Exports.{
  leaving,
  ran_to,
  run_told,
  read_into,
  write_into,
  ReadsBackTo,
  WrittenAgainFrom,
  fresh_to,
  fresh_told,
  answered,
  up_to_six,
  refused_anyway,
  refused_event,
  event_on,
  event_told,
  discovery_told,
  ShowsLeft,
  shown_to,
  shown_told,
  ScriptReadsTo,
  read_leaving,
  ScriptComesOut,
};
ghost use Rattle.api.specs.Parts.{anyway_in};

use answer::Refusal;
use drive::{Drive, Event, Header};
use event_form::EventKind;
use run::Unrun;
use script::ScriptError;

/// Tells how many were written, or why none were.
fn tell(done: Result<usize, Refusal>, count: &mut usize) -> u8
    ensures told { (out : List ℕ) → told result count.new out ≡ leaving count.old (told_in done out) }
    ensures done { result ≡ 0 → done ≡ Ok count.new }
{
    match done {
        Ok(written) => {
            *count = written;
            0
        }
        Err(refusal) => refusal.number(),
    }
}

/// Tells why a script is refused, and the place of a bad one.
fn tell_error(error: ScriptError, place: &mut usize) -> u8
    ensures number { result ≡ error_number error }
    ensures place { place.new ≡ cond (eqb result bad_script) (error_place error) place.old }
{
    if let ScriptError::Bad { place: at } = error {
        *place = at;
    }
    error.number()
}

/// The listing of a script, from the output's start, and its length.
#[unsafe(no_mangle)]
pub extern "C" fn drive_list(script: &[u8], out: &mut [u8], length: &mut usize) -> u8
    ensures { told result length.new out.new ≡ leaving length.old (filled_by (listing (read_script script.now)) out.old) }
{
    tell(report::list(script, out), length)
}

/// The run of a script's first events, at most so many: the answer and the stops of each in the two buffers, and the number of events run;
/// or the place of a bad script.
#[unsafe(no_mangle)]
pub extern "C" fn drive_run(
    script: &[u8],
    most: u64,
    answers: &mut [u8],
    stops: &mut [u8],
    place: &mut usize,
    count: &mut usize,
) -> u8
    ensures { ran_to result place.new count.new answers.new stops.new ≡ run_told place.old count.old (run_script (read_script script.now) most answers.old stops.old) }
{
    let ran = run::run(script, most, answers, stops);
    match ran.events {
        Ok(events) => {
            *count = events;
            0
        }
        Err(error) => tell_error(error, place),
    }
}

/// Hands numbers over where they fit, and tells how many.
fn hand(codes: &[u64], out: &mut [u64], count: &mut usize) -> u8
    ensures { told result count.new out.new ≡ leaving count.old (filled_by codes.now out.old) }
{
    if out.len() < codes.len() {
        return Refusal::ShortBuffer.number();
    }
    output::put(out, 0, codes);
    *count = codes.len();
    0
}

/// The elements that bytes are the token form of, as `tokens_write` takes them, and how many there are.
#[unsafe(no_mangle)]
pub extern "C" fn tokens_read(bytes: &[u8], out: &mut [u64], count: &mut usize) -> u8
    ensures out_after { told result count.new out.new ≡ leaving count.old (read_into (read_tokens bytes.now) out.old) }
    ensures again { WrittenAgainFrom bytes.now result count.new out.new }
{
    match token_reader::read(bytes) {
        Ok(expression) => {
            let codes = token_writer::codes(&expression.elements);
            let length = expression.as_slice().len();
            hand(&codes[..length], out, count)
        }
        Err(unread) => unread.number(),
    }
}

/// The token form of a list of elements, from the output's start, and its length. A number below 2^32 is a reference to that row, and 2^32
/// plus a code is an operator.
#[unsafe(no_mangle)]
pub extern "C" fn tokens_write(codes: &[u64], out: &mut [u8], count: &mut usize) -> u8
    ensures out_after { told result count.new out.new ≡ leaving count.old (write_into codes.now out.old) }
    ensures back { ReadsBackTo codes.now result count.new out.new }
{
    tell(token_writer::write(codes, out), count)
}

/// What the fresh drive of a header counts.
#[unsafe(no_mangle)]
pub extern "C" fn drive_fresh(
    capacity: u64,
    bands: u64,
    sensors: u64,
    blocks: &mut u64,
    band_count: &mut usize,
    sensor_count: &mut usize,
) -> u8
    ensures { fresh_to result blocks.new band_count.new sensor_count.new ≡ fresh_told capacity bands sensors }
{
    let fresh = Drive::fresh(Header {
        capacity,
        bands,
        sensors,
    });
    let drive = fresh.drive;
    *blocks = drive.capacity;
    *band_count = drive.band_count;
    *sensor_count = drive.sensor_count;
    answer::number(fresh.answer)
}

/// Whether a refusal comes no later than a bad script's: the others look at the bands that a run has placed and locked.
fn is_early(refusal: Refusal) -> bool
    ensures { result ≡ up_to_six (number_of refusal) }
{
    matches!(
        refusal,
        Refusal::NoRow
            | Refusal::OutOfRange
            | Refusal::NotTokens
            | Refusal::TooLong
            | Refusal::Global
            | Refusal::PastEnd
            | Refusal::Malformed
    )
}

/// The refusal that an event gets whatever the script is: an early one on the greatest drive.
fn refused_anyway(event: Event<'_>) -> Option<Refusal>
    ensures { anyway_in result ≡ refused_anyway (event_in event.entry) }
{
    let made = Drive::fresh(Header {
        capacity: Drive::CAPACITY,
        bands: Drive::BANDS,
        sensors: Drive::SENSORS,
    });
    let mut drive = made.drive;
    match events::apply(&mut drive, event) {
        Err(refusal) if is_early(refusal) => Some(refusal),
        _ => None,
    }
}

/// One event where the script is bad: the event's own number, or that of the script and the place.
fn event_unrun(event: Event<'_>, bad: Unrun, place: &mut usize) -> u8
    ensures { (stops : ℕ) → answered result stops place.new ≡ refused_event bad_script bad.place (event_in event.entry) stops place.old }
{
    match refused_anyway(event) {
        Some(refusal) => refusal.number(),
        None => {
            *place = bad.place;
            Refusal::BadScript.number()
        }
    }
}

/// One event on the drive that a script leaves.
fn event_by(script: &[u8], event: Event<'_>, stops: &mut u64, place: &mut usize) -> u8
    ensures { answered result stops.new place.new ≡ event_on (read_script script.now) (event_in event.entry) stops.old place.old }
{
    let mut drive = match run::left(script) {
        Ok(left) => left,
        Err(bad) => return event_unrun(event, bad, place),
    };
    match events::apply(&mut drive, event) {
        Ok(given) => {
            *stops = given;
            0
        }
        Err(refusal) => refusal.number(),
    }
}

/// One event, with any numbers, on the drive that a script leaves: its answer and its stops, or the place of a bad script. The kind is a
/// script's, and so are the fields, save that a Set has a value for each column, named or not; the bytes of an expression go beside them.
#[unsafe(no_mangle)]
pub extern "C" fn drive_event(
    script: &[u8],
    kind: u64,
    fields: &[u64],
    tokens: &[u8],
    stops: &mut u64,
    place: &mut usize,
) -> u8
    ensures { answered result stops.new place.new ≡ event_told (read_script script.now) kind fields.now tokens.now stops.old place.old }
{
    match EventKind::try_from(kind) {
        Ok(known) => event_by(script, known.event_of(fields, tokens), stops, place),
        Err(refusal) => refusal.number(),
    }
}

/// The discovery answer of the drive that a script leaves, from the output's start, and its length; or the place of a bad script, which is
/// told where the length would be.
#[unsafe(no_mangle)]
pub extern "C" fn discovery_write(script: &[u8], out: &mut [u8], length: &mut usize) -> u8
    ensures out_after { told result length.new out.new ≡ discovery_told length.old (read_script script.now) out.old }
    ensures back { ShowsLeft (read_script script.now) result out.new }
{
    match run::left(script) {
        Ok(drive) => tell(discovery_answer::write(&drive, out), length),
        Err(bad) => {
            *length = bad.place;
            Refusal::BadScript.number()
        }
    }
}

/// What is shown of a discovery answer: whether each of the two features is there, 1 or 0, and the flags of the Locking feature.
#[unsafe(no_mangle)]
pub extern "C" fn discovery_read(
    bytes: &[u8],
    locking: &mut u8,
    ranges: &mut u8,
    flags: &mut u8,
) -> u8
    ensures { shown_to result locking.new ranges.new flags.new ≡ shown_told bytes.now locking.old ranges.old flags.old }
{
    match discovery_answer::read(bytes) {
        Ok(features) => {
            *locking = u8::from(features.locking);
            *ranges = u8::from(features.ranges);
            *flags = features.flags;
            0
        }
        Err(refusal) => refusal.number(),
    }
}

/// A script from the output's start, and its length: the header, and the events of which fields and tokens are the flat form. In fields each event has
/// its kind and then every field, a Set a value for each column, named or not, and a band Set the number of its expression's bytes; these go, one
/// expression after the other, into tokens.
#[unsafe(no_mangle)]
pub extern "C" fn script_write(
    capacity: u64,
    bands: u64,
    sensors: u64,
    fields: &[u64],
    tokens: &[u8],
    out: &mut [u8],
    length: &mut usize,
) -> u8
    ensures out_after { told result length.new out.new ≡ leaving length.old (script_told capacity bands sensors (events_of fields.now tokens.now) out.old) }
    ensures back { ScriptReadsTo capacity bands sensors (events_of fields.now tokens.now) result length.new out.new }
{
    let header = Header {
        capacity,
        bands,
        sensors,
    };
    tell(script_writer::write(header, fields, tokens, out), length)
}

/// The header of a script, and the flat form of its events from the start of fields and tokens, with how many numbers and bytes it has; or the place of
/// a bad script.
#[unsafe(no_mangle)]
pub extern "C" fn script_read(
    script: &[u8],
    fields: &mut [u64],
    tokens: &mut [u8],
    place: &mut usize,
    capacity: &mut u64,
    bands: &mut u64,
    sensors: &mut u64,
    field_count: &mut usize,
    token_count: &mut usize,
) -> u8
    ensures tokens_after { read_to result place.new capacity.new bands.new sensors.new field_count.new token_count.new fields.new tokens.new ≡ read_leaving place.old capacity.old bands.old sensors.old field_count.old token_count.old (flat_told (read_script script.now) fields.old tokens.old) }
    ensures again { ScriptComesOut script.now result capacity.new bands.new sensors.new field_count.new token_count.new fields.new tokens.new }
{
    match script_reader::read(script, fields, tokens) {
        Ok(read) => {
            let header = read.header;
            *capacity = header.capacity;
            *bands = header.bands;
            *sensors = header.sensors;
            *field_count = read.fields;
            *token_count = read.tokens;
            0
        }
        Err(unread) => tell_error(unread, place),
    }
}
