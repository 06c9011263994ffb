//! The events of a script, one after the other, on a drive that is changed in place: an event stores one sensor, one row, the spans or the
//! sensors, and then, only where it is due, the rows that are lockable (a side enabled and not locked) may lock.
#![tactic(auto)]

ghost use Rattle.std.specs.Prelude.{◌≡◌, ◌≤◌, length};
ghost use Rattle.drive.specs.State.{fresh_of};
ghost use Rattle.drive.specs.Events.{event_in};
ghost use Rattle.drive.specs.Events.{Event as E};
ghost use Rattle.in_place.specs.FirstEvents.{after, events_run, first_events, first_events_run};
ghost use Rattle.in_place.specs.Parts.{Stored, Kept, Runs, Finishes, on_sensor, SettledSixteen, LooksIfTurned, FlagsIfLockable};

use answer::Refusal;
use band::{Row, Side};
use band_columns::BandColumns;
use drive::{Drive, Event, Header};
use geometry::Span;
use reader::Reader;
use sensor_set::{SensorColumns, SensorEvent};

/// A drive whose bands are settled, and whether some row of it may be lockable: else nothing settles, and no reset locks a side.
#[derive(Clone, Copy)]
struct Run {
    drive: Drive,
    any_lockable: bool,
}

impl Run {
    #[tactic(auto, using(crate::proofs::Finishing::finish_idle))]
    /// Locks the rows that a reset of a type, where there is one, and then settling lock.
    fn finish(&mut self, reset: Option<u64>)
        requires { Stored self.old }
        ensures { Finishes self.old reset self.new }
    {
        if !self.any_lockable {
            return;
        }
        let conditions = self.drive.conditions();
        let mut any_lockable = false;
        for row in &mut self.drive.rows {
            if row.lockable() {
                if row.locks(reset, &conditions) {
                    row.lock();
                } else {
                    any_lockable = true;
                }
            }
        }
        self.any_lockable = any_lockable;
    }

    #[tactic(auto, using(crate::proofs::Storing::sensor_stored))]
    /// An event on one sensor. The rows are looked at only where its condition is another then.
    // inlined into the two arms of `apply` that call it, so that no event of a sensor is made up for the call
    #[inline(always)]
    fn on_sensor(&mut self, sensor: u64, event: SensorEvent) -> Result<u64, Refusal>
        requires { Kept self.old }
        ensures runs { Runs self.old (on_sensor sensor event) result self.new }
        ensures looks { LooksIfTurned self.old sensor self.new }
    {
        let at = drive::place_of(self.drive.sensor_count, sensor)?;
        let one = self.drive.sensors[at];
        let new = event.apply(one)?;
        self.drive.sensors[at] = new;
        if new.condition != one.condition {
            self.finish(None);
        }
        Ok(0)
    }

    /// An elapse. Where no timer ends, the timers alone are lowered.
    fn elapse(&mut self, ticks: u64) -> Result<u64, Refusal>
        requires { Kept self.old }
        ensures { Runs self.old (E.elapse ticks) result self.new }
    {
        if elapse::MOST_TICKS < ticks {
            return Err(Refusal::OutOfRange);
        }
        let n = ticks as u32;
        if n <= sensors::quiet_ticks(&self.drive.sensors, n) {
            sensors::lower_all(&mut self.drive.sensors, n);
            return Ok(0);
        }
        if !self.any_lockable {
            // nothing settles: the sensors alone
            return Ok(sensors::pass_all(&mut self.drive.sensors, n));
        }
        let stops = elapse::elapse(&mut self.drive, n);
        self.finish(None);
        Ok(stops)
    }

    #[tactic(auto, using(crate::proofs::Storing::reset_stored, crate::proofs::Storing::kept_stored))]
    /// A reset. A power cycle touches the sensors, the other types do not.
    fn reset(&mut self, reset_type: u64) -> Result<u64, Refusal>
        requires { Kept self.old }
        ensures { Runs self.old (E.reset reset_type) result self.new }
    {
        if Row::LAST_RESET < reset_type {
            return Err(Refusal::OutOfRange);
        }
        if reset_type == 0 {
            sensors::power_cycle_all(&mut self.drive.sensors);
        }
        self.finish(Some(reset_type));
        Ok(0)
    }

    /// A Set of a row, which settles alone: the others have.
    fn set_band(&mut self, band: u64, columns: BandColumns, tokens: &[u8]) -> Result<u64, Refusal>
        requires { Kept self.old }
        ensures runs { Runs self.old (E.band_set band columns tokens.now) result self.new }
        ensures flags { FlagsIfLockable self.old band result self.new }
    {
        let at = drive::place_of(self.drive.band_count, band)?;
        let conditions = self.drive.conditions();
        let mut row = row_set::set(&self.drive.rows[at], &conditions, columns, tokens)?;
        row.settle(&conditions);
        self.any_lockable |= row.lockable();
        self.drive.rows[at] = row;
        Ok(0)
    }

    fn set_geometry(&mut self, band: u64, span: Span) -> Result<u64, Refusal>
        requires { Kept self.old }
        ensures { Runs self.old (E.geometry band span.start span.length) result self.new }
    {
        geometry::place(
            self.drive.capacity,
            self.drive.band_count,
            &mut self.drive.spans,
            band,
            span,
        )?;
        Ok(0)
    }

    fn transfer(&mut self, direction: u64, range: Span) -> Result<u64, Refusal>
        requires { Kept self.old }
        ensures { Runs self.old (E.transfer direction range.start range.length) result self.new }
    {
        let side = Side::try_from(direction)?;
        let closed = bands::closed_sides(&self.drive.rows, side);
        geometry::transfer(
            self.drive.capacity,
            self.drive.band_count,
            &self.drive.spans,
            &closed,
            range,
        )?;
        Ok(0)
    }

    /// Any of the seven events: its stops, or why it is refused.
    fn apply(&mut self, event: Event<'_>) -> Result<u64, Refusal>
        requires { Kept self.old }
        ensures { Runs self.old (event_in event.entry) result self.new }
    {
        match event {
            Event::Reading { sensor, value } => self.on_sensor(
                sensor,
                SensorEvent::Reading { value },
            ),
            Event::Elapse { ticks } => self.elapse(ticks),
            Event::Reset { reset_type } => self.reset(reset_type),
            Event::SensorSet { sensor, columns } => self.on_sensor(
                sensor,
                SensorEvent::Set { columns },
            ),
            Event::BandSet {
                band,
                columns,
                tokens,
            } => self.set_band(band, columns, tokens),
            Event::Geometry { band, span } => self.set_geometry(band, span),
            Event::Transfer { direction, range } => self.transfer(direction, range),
        }
    }
}

/// Runs at most so many events, ending before the first that does not read, and writes a byte for each into both buffers.
fn run_settled(
    mut reader: Reader<'_>,
    count: usize,
    fresh: Drive,
    answers: &mut [u8],
    stops: &mut [u8],
) -> Drive
    requires count_in_bounds { (count ≤ length answers.old) × (count ≤ length stops.old) }
    requires settled_sixteen { SettledSixteen fresh }
    ensures { after result answers.new stops.new ≡ events_run fresh (first_events count reader.entry.script.now reader.entry.at) answers.old stops.old }
{
    let mut run = Run {
        drive: fresh,
        any_lockable: true,
    };
    // stays: (4) each turn writes one place of both lent buffers, and ends where no event reads
    for i in 0..count {
        let Some(event) = event_reader::event(&mut reader) else {
            return run.drive;
        };
        match run.apply(event) {
            Ok(ended) => {
                answers[i] = 0;
                // at most sixteen, as there are sensors
                stops[i] = ended as u8;
            }
            Err(refusal) => {
                answers[i] = refusal.number();
                stops[i] = 0;
            }
        }
    }
    run.drive
}

#[tactic(auto, using(crate::proofs::Running::fresh_sixteen, crate::proofs::Running::short_answers, crate::proofs::Running::short_stops, crate::proofs::Running::long_enough))]
/// Runs at most so many events from a reader's place on, from the fresh drive of a header, and writes the number of each answer and the count of its
/// stops into the two buffers; none where a buffer has fewer bytes than that.
pub fn run_events(
    reader: Reader<'_>,
    count: usize,
    header: Header,
    answers: &mut [u8],
    stops: &mut [u8],
) -> Drive
    ensures { after result answers.new stops.new ≡ first_events_run reader.entry.script.now reader.entry.at count (fresh_of header.capacity header.bands header.sensors) answers.old stops.old }
{
    let made = Drive::fresh(header);
    if answers.len() < count || stops.len() < count {
        return made.drive;
    }
    run_settled(reader, count, made.drive, answers, stops)
}
