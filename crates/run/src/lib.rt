//! The run of a script: its events, one after the other, from the fresh drive of its header.
#![tactic(auto)]

ghost use Rattle.std.specs.Prelude.{◌≡◌, ◌≤◌, length};
ghost use Rattle.script.specs.Whole.{most_events, most_script_bytes, read_script};
ghost use Rattle.reached.specs.Reached.{Reached};
ghost use Rattle.run.specs.Condition3.{Condition3OfRun, Condition3OfTwo};
ghost use Rattle.run.specs.Outcome.{outcome_in, run_script};
ghost use Rattle.run.specs.Left.{left_in, left_drive, left_by};
ghost use Rattle.run.specs.Reached.{RunReaches};
ghost use Rattle.run.specs.Parts.{fewer_of, FirstRun, refused_in};

use drive::{Drive, Header};
use reader::Reader;
use script::ScriptError;

/// As many events as a script may have bytes: so many are all of them.
pub const WHOLE: u64 = script::MOST_BYTES as u64;

/// The most events of a script: each takes two bytes at least, after a header of three.
pub const MOST_EVENTS: usize = 32_766;

/// What a run hands back: how many events were run, or why none was; and the drive that they left, or that of a refused header.
// stays: (1) a drive outside the Result: refused_drive_of_two_blocks and RunReaches speak of a refused run's drive too
#[derive(Clone, Copy)]
pub struct Ran {
    pub events: Result<usize, ScriptError>,
    pub drive: Drive,
}

/// What two runs hand back.
#[derive(Clone, Copy)]
pub struct RanTwo {
    pub first: Ran,
    pub second: Ran,
}

/// Of a bad script, which leaves no drive of its own: the place of what is bad, and the drive of a refused header.
// stays: (1) a drive beside the place: the clause `reached` of `left` speaks of a bad script's drive too (drive_of_a_bad_script_of_two_blocks)
#[derive(Clone, Copy)]
pub struct Unrun {
    pub place: usize,
    pub drive: Drive,
}

/// How many events to run: those asked for, or all where there are fewer.
fn fewer(all: usize, most: u64) -> usize
    ensures { result ≡ fewer_of all most }
{
    usize::try_from(most).unwrap_or(all).min(all)
}

#[tactic(auto, unfolding(drive::specs::State::header_fits))]
/// A run that is refused: no event is run.
fn refused(error: ScriptError) -> Ran
    ensures { result ≡ refused_in error }
{
    let header = Header {
        capacity: 1,
        bands: 1,
        sensors: 0,
    };
    let made = Drive::fresh(header);
    Ran {
        events: Err(error),
        drive: made.drive,
    }
}

#[tactic(auto, using(crate::proofs::Whole::bad_first, crate::proofs::Whole::short_buffers))]
/// Runs the first events of a script, at most so many: how many they are, and the drive that they leave. An error leaves the buffers as they were.
fn run_first(
    script: &[u8],
    most: u64,
    answers: &mut [u8],
    stops: &mut [u8],
) -> Result<(usize, Drive), ScriptError>
    ensures { FirstRun script.now most answers.old stops.old result answers.new stops.new }
{
    let all = script::check(script)?;
    let count = fewer(all, most);
    if answers.len() < count || stops.len() < count {
        return Err(ScriptError::ShortBuffer);
    }
    let mut reader = Reader::new(script, 0);
    let Some(header) = script::header(&mut reader) else {
        return Err(ScriptError::Bad { place: 0 });
    };
    let drive = in_place::run_events(reader, count, header, answers, stops);
    Ok((count, drive))
}

#[tactic(auto, using(crate::proofs::Holding::holds))]
/// Runs the first events of a script, at most so many, and writes the answer and the stops of each into the two buffers. A run that is refused
/// leaves them as they were.
pub fn run(script: &[u8], most: u64, answers: &mut [u8], stops: &mut [u8]) -> Ran
    ensures stops_after { outcome_in result answers.new stops.new ≡ run_script (read_script script.now) most answers.old stops.old }
    ensures condition { Condition3OfRun script.now most result answers.new }
    ensures reached { RunReaches result }
{
    match run_first(script, most, answers, stops) {
        Ok((count, drive)) => Ran {
            events: Ok(count),
            drive,
        },
        Err(error) => refused(error),
    }
}

/// Runs two scripts whole, each into its own buffers.
pub fn run_two(
    first: &[u8],
    second: &[u8],
    answers: &mut [u8],
    stops: &mut [u8],
    answers2: &mut [u8],
    stops2: &mut [u8],
) -> RanTwo
    ensures stops_after { outcome_in result.first answers.new stops.new ≡ run_script (read_script first.now) most_script_bytes answers.old stops.old }
    ensures second { outcome_in result.second answers2.new stops2.new ≡ run_script (read_script second.now) most_script_bytes answers2.old stops2.old }
    ensures condition { Condition3OfTwo first.now second.now result answers.new answers2.new }
    ensures reached { RunReaches result.first × RunReaches result.second }
{
    let one = run(first, WHOLE, answers, stops);
    let two = run(second, WHOLE, answers2, stops2);
    RanTwo {
        first: one,
        second: two,
    }
}

/// Runs a script whole by way of lent memory, a byte for each of its events in two buffers, and hands its drive over.
fn left_by(script: &[u8], answers: &mut [u8], stops: &mut [u8]) -> Result<Drive, Unrun>
    requires { (most_events ≤ length answers.old) × (most_events ≤ length stops.old) }
    ensures result_value { left_in result ≡ left_by (read_script script.now) }
    ensures reached { Reached (left_drive result) }
{
    let ran = run(script, WHOLE, answers, stops);
    match ran.events {
        Ok(_) => Ok(ran.drive),
        // of the two errors only the first is met: the buffers are long enough
        Err(error) => Err(Unrun {
            place: error.place(),
            drive: ran.drive,
        }),
    }
}

/// Runs a script whole and hands over the drive that its last event leaves; or the place of what is bad, and the drive of a refused header.
pub fn left(script: &[u8]) -> Result<Drive, Unrun>
    ensures result_value { left_in result ≡ left_by (read_script script.now) }
    ensures reached { Reached (left_drive result) }
{
    let mut answers = [0; MOST_EVENTS];
    let mut stops = [0; MOST_EVENTS];
    left_by(script, &mut answers, &mut stops)
}
