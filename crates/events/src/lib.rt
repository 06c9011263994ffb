//! The seven events of a drive: each takes any numbers and any drive, changes the drive in place, and hands back the stops, or the refusal and
//! the drive as it was.
#![tactic(auto)]

ghost use Rattle.std.specs.Prelude.{◌≡◌, cond, map, ◌<◌, ◌≤◌, eqb, IfOk};
ghost use Rattle.sensor.specs.Single.{power_cycle_of};
ghost use Rattle.drive.specs.Events.{sensing, Replies, event_in};
ghost use Rattle.drive.specs.Events.{Event as E};
ghost use Rattle.elapse.specs.Jumps.{running};
ghost use Rattle.events.specs.Parts.{RepliesBy};

use answer::Refusal;
use band::{Row, Side};
use band_columns::BandColumns;
use drive::{Drive, Event};
use geometry::Span;
use sensor_set::{SensorColumns, SensorEvent};

/// An event on one sensor.
fn on_sensor(drive: &mut Drive, sensor: u64, event: SensorEvent) -> Result<u64, Refusal>
    ensures { RepliesBy drive.old (sensing sensor event) result drive.new }
{
    let at = drive::place_of(drive.sensor_count, sensor)?;
    drive.sensors[at] = event.apply(drive.sensors[at])?;
    drive.settle();
    Ok(0)
}

/// Event 1, a sensor's reading. Errors: `NoRow`, `OutOfRange`.
pub fn reading(drive: &mut Drive, sensor: u64, value: u64) -> Result<u64, Refusal>
    ensures { Replies drive.old (E.reading sensor value) result drive.new }
{
    on_sensor(drive, sensor, SensorEvent::Reading { value })
}

/// Event 2, time that passes: hands back the stops, at most as many as timers ran. Errors: `OutOfRange`.
pub fn elapse(drive: &mut Drive, ticks: u64) -> Result<u64, Refusal>
    ensures replies { Replies drive.old (E.elapse ticks) result drive.new }
    ensures few { IfOk result (λ stops. stops ≤ running drive.old) }
{
    if elapse::MOST_TICKS < ticks {
        return Err(Refusal::OutOfRange);
    }
    let stops = elapse::elapse(drive, ticks as u32);
    drive.settle();
    Ok(stops)
}

/// Event 3, a reset. Errors: `OutOfRange` of a type that there is not.
pub fn reset(drive: &mut Drive, reset_type: u64) -> Result<u64, Refusal>
    ensures { Replies drive.old (E.reset reset_type) result drive.new }
{
    if Row::LAST_RESET < reset_type {
        return Err(Refusal::OutOfRange);
    }
    bands::reset_all(&mut drive.rows, reset_type);
    if reset_type == 0 {
        sensors::power_cycle_all(&mut drive.sensors);
    }
    drive.settle();
    Ok(0)
}

/// Event 4, a Set of a sensor's columns. Errors: `NoRow`, `OutOfRange`.
pub fn set_sensor(drive: &mut Drive, sensor: u64, columns: SensorColumns) -> Result<u64, Refusal>
    ensures { Replies drive.old (E.sensor_set sensor columns) result drive.new }
{
    on_sensor(drive, sensor, SensorEvent::Set { columns })
}

/// Event 5, a Set of a band's columns. Errors: `NoRow`, `OutOfRange`, `NotTokens`, `TooLong`, `Malformed`, `Held`.
pub fn set_band(
    drive: &mut Drive,
    band: u64,
    columns: BandColumns,
    tokens: &[u8],
) -> Result<u64, Refusal>
    ensures { Replies drive.old (E.band_set band columns tokens.now) result drive.new }
{
    let at = drive::place_of(drive.band_count, band)?;
    let conditions = drive.conditions();
    drive.rows[at] = row_set::set(&drive.rows[at], &conditions, columns, tokens)?;
    drive.settle();
    Ok(0)
}

/// Event 6, a band's new place. Errors: `NoRow`, `Global`, `PastEnd`, `Overlap`.
pub fn set_geometry(drive: &mut Drive, band: u64, span: Span) -> Result<u64, Refusal>
    ensures { Replies drive.old (E.geometry band span.start span.length) result drive.new }
{
    geometry::place(
        drive.capacity,
        drive.band_count,
        &mut drive.spans,
        band,
        span,
    )?;
    drive.settle();
    Ok(0)
}

/// Event 7, a read or write of a range of blocks. Errors: `OutOfRange` of the direction, `PastEnd`, `Locked`.
pub fn transfer(drive: &mut Drive, direction: u64, range: Span) -> Result<u64, Refusal>
    ensures { Replies drive.old (E.transfer direction range.start range.length) result drive.new }
{
    let side = Side::try_from(direction)?;
    let closed = bands::closed_sides(&drive.rows, side);
    geometry::transfer(
        drive.capacity,
        drive.band_count,
        &drive.spans,
        &closed,
        range,
    )?;
    drive.settle();
    Ok(0)
}

/// Any of the seven. Errors: those of the event.
// stays: (1) the seven above are public, each with its own equation; this is the match over them
pub fn apply(drive: &mut Drive, event: Event<'_>) -> Result<u64, Refusal>
    ensures { Replies drive.old (event_in event.entry) result drive.new }
{
    match event {
        Event::Reading { sensor, value } => reading(drive, sensor, value),
        Event::Elapse { ticks } => elapse(drive, ticks),
        Event::Reset { reset_type } => reset(drive, reset_type),
        Event::SensorSet { sensor, columns } => set_sensor(drive, sensor, columns),
        Event::BandSet {
            band,
            columns,
            tokens,
        } => set_band(drive, band, columns, tokens),
        Event::Geometry { band, span } => set_geometry(drive, band, span),
        Event::Transfer { direction, range } => transfer(drive, direction, range),
    }
}
