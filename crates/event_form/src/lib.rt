//! An event by its numbers: its kind, and then every field, a Set's values named or not.
#![tactic(auto)]

ghost use Rattle.std.specs.Prelude.{◌≡◌, ◌++◌, ◌-◌, ◌≤◌, length, get_or, replicate};
ghost use Rattle.drive.specs.Events.{event_in};
ghost use Rattle.event_form.specs.Form.{tokens_of};
ghost use Rattle.event_form.specs.Kinds.{kind_number, FindsKind, sensor_columns, band_columns, event_by};
ghost use Rattle.event_form.specs.Parts.{width_of, count_of, Numbers, NumbersWith};

use answer::Refusal;
use band_columns::BandColumns;
use drive::Event;
use geometry::Span;
use sensor_set::SensorColumns;

/// The kinds of events, by their numbers in a script.
#[derive(Clone, Copy, Debug, PartialEq, Eq)]
pub enum EventKind {
    Reading = 1,
    Elapse = 2,
    Reset = 3,
    SensorSet = 4,
    BandSet = 5,
    Geometry = 6,
    Transfer = 7,
}

impl TryFrom<u64> for EventKind {
    type Error = Refusal;

    ghost try_from_gives = { λ number kind. FindsKind number kind };

    /// The kind of that number, or out of range where there is none.
    fn try_from(number: u64) -> Result<EventKind, Refusal> {
        match number {
            1 => Ok(EventKind::Reading),
            2 => Ok(EventKind::Elapse),
            3 => Ok(EventKind::Reset),
            4 => Ok(EventKind::SensorSet),
            5 => Ok(EventKind::BandSet),
            6 => Ok(EventKind::Geometry),
            7 => Ok(EventKind::Transfer),
            _ => Err(Refusal::OutOfRange),
        }
    }
}

impl EventKind {
    /// How many numbers an event of the kind has, its kind among them.
    pub fn width(self) -> usize
        ensures { result ≡ width_of (kind_number self) }
    {
        match self {
            EventKind::Reading => 3,
            EventKind::Elapse | EventKind::Reset => 2,
            EventKind::SensorSet => 10,
            EventKind::BandSet => 9,
            EventKind::Geometry | EventKind::Transfer => 4,
        }
    }

    #[tactic(auto, unfolding(crate::specs::Kinds::event_by))]
    /// The event of the kind, by its fields, each 0 past their end, and the bytes of its expression.
    pub fn event_of<'a>(self, fields: &[u64], tokens: &'a [u8]) -> Event<'a>
        ensures { event_in result ≡ event_by (kind_number self) fields.now tokens.now }
    {
        let first = field(fields, 0);
        let second = field(fields, 1);
        let span = Span {
            start: second,
            length: field(fields, 2),
        };
        match self {
            EventKind::Reading => Event::Reading {
                sensor: first,
                value: second,
            },
            EventKind::Elapse => Event::Elapse { ticks: first },
            EventKind::Reset => Event::Reset { reset_type: first },
            EventKind::SensorSet => Event::SensorSet {
                sensor: first,
                columns: sensor_columns(fields),
            },
            EventKind::BandSet => Event::BandSet {
                band: first,
                columns: band_columns(fields),
                tokens,
            },
            EventKind::Geometry => Event::Geometry { band: first, span },
            EventKind::Transfer => Event::Transfer {
                direction: first,
                range: span,
            },
        }
    }
}

/// A number of a list, 0 past its end.
pub fn field(fields: &[u64], at: usize) -> u64
    ensures { result ≡ get_or fields.now at 0 }
{
    fields.get(at).copied().unwrap_or(0)
}

// stays: (4) both Sets by `field`: a slice pattern would want eight names, and an arm for what is shorter
fn sensor_columns(fields: &[u64]) -> SensorColumns
    ensures { result ≡ sensor_columns fields.now }
{
    SensorColumns {
        mask: field(fields, 1),
        enabled: field(fields, 2),
        on_threshold: field(fields, 3),
        on_fraction: field(fields, 4),
        on_timeout: field(fields, 5),
        off_threshold: field(fields, 6),
        off_fraction: field(fields, 7),
        off_timeout: field(fields, 8),
    }
}

fn band_columns(fields: &[u64]) -> BandColumns
    ensures { result ≡ band_columns fields.now }
{
    BandColumns {
        mask: field(fields, 1),
        read_lock_enabled: field(fields, 2),
        write_lock_enabled: field(fields, 3),
        read_locked: field(fields, 4),
        write_locked: field(fields, 5),
        lock_on_reset: field(fields, 6),
    }
}

// stays: (4) the kinds by their numbers here and in `numbers_with`: `EventKind::BandSet as u64` says no more in a list of numbers
/// How many bytes the expression of the event has with which the numbers begin.
pub fn count_of(fields: &[u64]) -> u64
    ensures { result ≡ count_of fields.now }
{
    if field(fields, 0) == 5 {
        return field(fields, 8);
    }
    0
}

/// The numbers of an event: so many from the start, and 0 after them.
// stays: (1) that 0 follows them is promised
#[derive(Clone, Copy, Debug, PartialEq, Eq)]
pub struct EventNumbers {
    pub numbers: [u64; 10],
    pub width: usize,
}

fn padded<const N: usize>(first: [u64; N]) -> EventNumbers
    requires { N ≤ 10 }
    ensures width { result.width ≡ N }
    ensures numbers { result.numbers ≡ first.entry ++ replicate (10 - N) 0 }
{
    let mut numbers = [0; 10];
    numbers[..N].copy_from_slice(&first);
    EventNumbers { numbers, width: N }
}

// How many bytes the expression of an event has.
fn token_count(event: Event<'_>) -> usize
    ensures { result ≡ length (tokens_of (event_in event.entry)) }
{
    match event {
        Event::BandSet { tokens, .. } => tokens.len(),
        _ => 0,
    }
}

/// The numbers of an event: its kind and its fields, and of a band Set the length of its expression.
#[tactic(auto, using(crate::proofs::Numbers::own_numbers))]
pub fn numbers_of(event: Event<'_>) -> EventNumbers
    ensures { Numbers (event_in event.entry) result }
{
    numbers_with(event, token_count(event))
}

/// The numbers of an event whose expression has so many bytes. Which bytes are lent with it makes no difference.
pub fn numbers_with(event: Event<'_>, count: usize) -> EventNumbers
    ensures { NumbersWith (event_in event.entry) count result }
{
    match event {
        Event::Reading { sensor, value } => padded([1, sensor, value]),
        Event::Elapse { ticks } => padded([2, ticks]),
        Event::Reset { reset_type } => padded([3, reset_type]),
        Event::SensorSet { sensor, columns } => padded([
            4,
            sensor,
            columns.mask,
            columns.enabled,
            columns.on_threshold,
            columns.on_fraction,
            columns.on_timeout,
            columns.off_threshold,
            columns.off_fraction,
            columns.off_timeout,
        ]),
        Event::BandSet { band, columns, .. } => padded([
            5,
            band,
            columns.mask,
            columns.read_lock_enabled,
            columns.write_lock_enabled,
            columns.read_locked,
            columns.write_locked,
            columns.lock_on_reset,
            count as u64,
        ]),
        Event::Geometry { band, span } => padded([6, band, span.start, span.length]),
        Event::Transfer { direction, range } => padded([7, direction, range.start, range.length]),
    }
}
