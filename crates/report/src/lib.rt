//! The listing of a script: a line for each event, then for each band and each sensor; or the place of what is bad.
#![tactic(auto)]

mod lines;

ghost use Rattle.std.specs.Prelude.{◌≡◌, ◌≤◌, ◌++◌, length, take, IsOk};
ghost use Rattle.output.specs.Filling.{told_in, filled_by};
ghost use Rattle.script.specs.Whole.{most_events, read_script};
ghost use Rattle.run.specs.Outcome.{outcome_in};
ghost use Rattle.report.specs.Lines.{event_lines, drive_lines};
ghost use Rattle.report.specs.Listing.{listing, most_listed};
ghost use Rattle.report.specs.Parts.{Puts, Room, run_lines, Sized};

use answer::Refusal;
use drive::Drive;
use run::Ran;
use script::ScriptError;

/// An output of so many bytes is never too short: 32,766 lines of events at most, 16 of bands and 16 of sensors.
pub const MOST: usize = 426_486;

#[tactic(auto, using(crate::proofs::Putting::first_room, crate::proofs::Putting::next_bound, crate::proofs::Putting::next_room, crate::proofs::Putting::next_put))]
/// Writes the lines of so many events, and then those of the drive that they left, from the output's start.
fn put_done(out: &mut [u8], count: usize, drive: &Drive, answers: &[u8], stops: &[u8]) -> usize
    requires room { Room (event_lines answers.now stops.now count ++ drive_lines drive.now.band_count drive.now.sensor_count drive.now) out.old }
    requires events { (count ≤ length answers.now) × (count ≤ length stops.now) }
    requires rows { (drive.now.band_count ≤ 16) × (drive.now.sensor_count ≤ 16) }
    ensures { Puts (event_lines answers.now stops.now count ++ drive_lines drive.now.band_count drive.now.sensor_count drive.now) out.old result out.new }
{
    let at = lines::put_events(out, answers, stops, count);
    at + lines::put_drive(&mut out[at..], drive)
}

#[tactic(auto, using(crate::proofs::Whole::lines_done, crate::proofs::Whole::lines_bad, crate::proofs::Whole::lines_short, crate::proofs::Whole::sized_done))]
/// Writes the listing that a run's result and its buffers give, from the output's start.
fn put_run(out: &mut [u8], ran: &Ran, answers: &[u8], stops: &[u8]) -> usize
    requires room { Room (run_lines (outcome_in ran.now answers.now stops.now)) out.old }
    requires sized { Sized ran.now answers.now stops.now }
    ensures { Puts (run_lines (outcome_in ran.now answers.now stops.now)) out.old result out.new }
{
    match ran.events {
        Ok(count) => put_done(out, count, &ran.drive, answers, stops),
        Err(ScriptError::Bad { place }) => lines::put_line(out, b'f', &[place as u64]),
        // no event was run
        Err(ScriptError::ShortBuffer) => lines::put_drive(out, &ran.drive),
    }
}

/// A page for every listing. Nothing is ensured of its bytes, so that no proof has to look at them.
fn blank() -> [u8; MOST] {
    [0; MOST]
}

#[tactic(auto, using(crate::proofs::Whole::page_listed, crate::proofs::Putting::number_put))]
/// Writes the listing of a run on a page of its own, which costs an instruction for each of its bytes, and hands it over where it fits.
fn put_by_page(out: &mut [u8], ran: &Ran, answers: &[u8], stops: &[u8]) -> Result<usize, Refusal>
    requires short { length (run_lines (outcome_in ran.now answers.now stops.now)) ≤ most_listed }
    requires sized { Sized ran.now answers.now stops.now }
    ensures { told_in result out.new ≡ filled_by (run_lines (outcome_in ran.now answers.now stops.now)) out.old }
{
    let mut page = blank();
    let length = put_run(&mut page, ran, answers, stops);
    output::fill(&page[..length], out)
}

#[tactic(auto, using(crate::proofs::Whole::ran_sized, crate::proofs::Whole::ran_short, crate::proofs::Whole::ran_room, crate::proofs::Whole::ran_listed))]
/// Lists a script by way of lent memory: a byte for each event in two buffers. An output that is long enough for every listing is written straight.
fn list_by(
    script: &[u8],
    out: &mut [u8],
    answers: &mut [u8],
    stops: &mut [u8],
) -> Result<usize, Refusal>
    requires { (most_events ≤ length answers.old) × (most_events ≤ length stops.old) }
    ensures { told_in result out.new ≡ filled_by (listing (read_script script.now)) out.old }
{
    let ran = run::run(script, run::WHOLE, answers, stops);
    if MOST <= out.len() {
        return Ok(put_run(out, &ran, answers, stops));
    }
    put_by_page(out, &ran, answers, stops)
}

#[tactic(auto, using(crate::proofs::Whole::long_enough))]
/// Lists a script into the lent output, from its start, and tells how many bytes it wrote. The refusal `ShortBuffer`, of an output that is shorter
/// than its listing, leaves the output as it was.
pub fn list(script: &[u8], out: &mut [u8]) -> Result<usize, Refusal>
    ensures out_after { told_in result out.new ≡ filled_by (listing (read_script script.now)) out.old }
    ensures enough { most_listed ≤ length out.old → IsOk result }
{
    let mut answers = [0; run::MOST_EVENTS];
    let mut stops = [0; run::MOST_EVENTS];
    list_by(script, out, &mut answers, &mut stops)
}

/// The first items of a page; all of it where it has no more.
pub fn first<T>(page: &[T], count: usize) -> &[T]
    ensures { result.now ≡ take count page.now }
{
    page.get(..count).unwrap_or(page)
}
