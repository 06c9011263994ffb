//! Writing a script from its header and the flat form of its events.
#![tactic(auto)]

ghost use Rattle.std.specs.Prelude.{◌≡◌, ◌+◌, ◌*◌, ◌≤◌, ◌<◌, ◌||◌, eqb, length};
ghost use Rattle.base.specs.Columns.{named};
ghost use Rattle.base.specs.Spliced.{spliced};
ghost use Rattle.output.specs.Filling.{told_in};
ghost use Rattle.event_form.specs.Form.{values_bytes, values_fit};
ghost use Rattle.event_form.specs.Kinds.{kind_number};
ghost use Rattle.event_form.specs.Parts.{events_of};
ghost use Rattle.script_writer.specs.Write.{script_told, ReadsBack};
ghost use Rattle.script_writer.specs.Parts.{value_bytes, mask_over, PutsEvent, PutsEvents};

use answer::Refusal;
use drive::Header;
use event_form::EventKind;
use sensor_set::SensorColumns;

// A script's bytes and those of one event more, of which the longest has ten numbers of ten bytes and 1,024 bytes of an expression.
const ROOM: usize = 66_660;

// An event that was put: the place after it, and how many numbers and bytes it took.
#[derive(Clone, Copy)]
struct EventPut {
    place: usize,
    width: usize,
    count: usize,
}

// Puts a number where the mask's lowest bit names it, and tells the place after it.
fn put_value(bytes: &mut [u8], at: usize, mask: u64, value: u64) -> usize
    requires { at + 10 ≤ length bytes.old }
    ensures value { result ≡ at + length (value_bytes mask value) }
    ensures bytes { bytes.new ≡ spliced bytes.old at (value_bytes mask value) }
{
    if !base::names(mask, 1) {
        return at;
    }
    let form = numbers::write(value);
    output::put(bytes, at, &form.bytes[..form.count]);
    at + form.count
}

// Puts the numbers that the mask names, by rising bit, and tells the place after them.
fn put_values(bytes: &mut [u8], at: usize, mask: u64, values: &[u64]) -> usize
    requires { at + 10 * length values.now ≤ length bytes.old }
    ensures value { result ≡ at + length (values_bytes mask values.now) }
    ensures bytes { bytes.new ≡ spliced bytes.old at (values_bytes mask values.now) }
{
    let mut place = at;
    let mut rest = mask;
    for &value in values {
        place = put_value(bytes, place, rest, value);
        rest /= 2;
    }
    place
}

// Whether every number that the mask does not name is 0, and the mask has no bit more than there are numbers.
fn all_fit(mask: u64, values: &[u64]) -> bool
    ensures { result ≡ values_fit mask values.now }
{
    let mut rest = mask;
    for &value in values {
        if !base::names(rest, 1) && value != 0 {
            return false;
        }
        rest /= 2;
    }
    rest == 0
}

// The mask over all numbers of an event of a kind, by the mask of a Set among them.
fn mask_over(kind: EventKind, numbers: &[u64]) -> u64
    ensures { result ≡ mask_over (kind_number kind) numbers.now }
{
    match kind {
        EventKind::Reading => 7,
        EventKind::Elapse | EventKind::Reset => 3,
        EventKind::SensorSet | EventKind::BandSet => set_mask(event_form::field(numbers, 2)),
        EventKind::Geometry | EventKind::Transfer => 15,
    }
}

// The mask over all numbers of a Set, by its own mask.
fn set_mask(mask: u64) -> u64
    ensures { result ≡ Rattle.script_writer.specs.Parts.set_mask mask }
{
    if mask < SensorColumns::MASKS {
        return 7 + 8 * mask;
    }
    0
}

// Puts the event with which numbers and tokens begin, where a script can hold it.
fn put_event(fields: &[u64], tokens: &[u8], bytes: &mut [u8], at: usize) -> Option<EventPut>
    requires { at + 1124 ≤ length bytes.old }
    ensures { PutsEvent fields.now tokens.now bytes.old at result bytes.new }
{
    let kind = EventKind::try_from(event_form::field(fields, 0)).ok()?;
    let width = kind.width();
    let numbers = fields.get(..width)?;
    let mask = mask_over(kind, numbers);
    if !all_fit(mask, numbers) {
        return None;
    }
    let size = event_form::count_of(fields);
    if (token_reader::MOST_BYTES as u64) < size {
        return None;
    }
    let count = size as usize;
    let expression = tokens.get(..count)?;
    let end = put_values(bytes, at, mask, numbers);
    output::put(bytes, end, expression);
    Some(EventPut {
        place: end + count,
        width,
        count,
    })
}

// Puts all events from a place on, where a script can hold them, and tells the place after them.
fn put_events(
    mut fields: &[u64],
    mut tokens: &[u8],
    bytes: &mut [u8],
    start: usize,
) -> Option<usize>
    requires { (start ≤ 65536) × (length bytes.old ≡ 66660) }
    ensures { PutsEvents (events_of fields.entry.now tokens.entry.now) bytes.old start result bytes.new }
{
    let mut at = start;
    while !fields.is_empty() {
        let put = put_event(fields, tokens, bytes, at)?;
        if script::MOST_BYTES < put.place {
            return None;
        }
        at = put.place;
        fields = &fields[put.width..];
        tokens = &tokens[put.count..];
    }
    tokens.is_empty().then_some(at)
}

// stays: (1) the events as fields and tokens, two slices: the flat form of the C interface
/// Writes a script from the output's start, and tells how many bytes it has: the header, and the events of which fields and tokens are the flat form.
/// Out of range is answered to a header out of range, to what is the flat form of no events, to an event that no script can hold, and to a script above
/// 65,536 bytes; and then a short buffer where the output is too short. A refusal leaves the output as it was.
pub fn write(
    header: Header,
    fields: &[u64],
    tokens: &[u8],
    out: &mut [u8],
) -> Result<usize, Refusal>
    ensures out_after { told_in result out.new ≡ script_told header.capacity header.bands header.sensors (events_of fields.now tokens.now) out.old }
    ensures back { ReadsBack header.capacity header.bands header.sensors (events_of fields.now tokens.now) result out.new }
{
    if !header.fits() {
        return Err(Refusal::OutOfRange);
    }
    let mut bytes = [0; ROOM];
    let numbers = [header.capacity, header.bands, header.sensors];
    let start = put_values(&mut bytes, 0, 7, &numbers);
    let count = put_events(fields, tokens, &mut bytes, start).ok_or(Refusal::OutOfRange)?;
    output::fill(&bytes[..count], out)
}
