//! The sixteen sensors of a drive, lent: one of them, and what a tick, a jump over quiet ticks and a power cycle make of them all.
#![tactic(auto)]

ghost use Rattle.std.specs.Prelude.{◌≡◌, true, map};
ghost use Rattle.base.specs.Lists.{any};
ghost use Rattle.base.specs.Lists.{count as count_of};
ghost use Rattle.base.specs.Rows.{Takes};
ghost use Rattle.sensor.specs.Single.{fresh_sensor, sensor_tick, power_cycle_of, runs, ends_next};
ghost use Rattle.sensor.specs.Parts.{lowered_by};
ghost use Rattle.sensors.specs.Sixteen.{conditions_below, Passes};
ghost use Rattle.sensors.specs.Parts.{quiet_ticks, turn_of, turned_in};

use sensor::Sensor;

/// What one turn of an elapse leaves: the ticks that are still to pass, and its stops, at most one.
#[derive(Clone, Copy, Debug, PartialEq, Eq)]
pub struct Turn {
    pub left: u32,
    pub stops: u64,
}

/// One of the sixteen; a fresh sensor past them.
pub fn sensor_at(sensors: &[Sensor; 16], at: usize) -> Sensor
    ensures { Takes sensors.now at fresh_sensor result }
{
    sensors.get(at).copied().unwrap_or(Sensor::fresh())
}

/// A tick of each sensor, which changes those alone whose timer runs.
pub fn tick_all(sensors: &mut [Sensor; 16])
    ensures { sensors.new ≡ map sensor_tick sensors.old }
{
    for sensor in sensors {
        if sensor.runs() {
            *sensor = sensor.tick();
        }
    }
}

/// k ticks of each sensor, where none of them ends a timer.
pub fn lower_all(sensors: &mut [Sensor; 16], k: u32)
    ensures { sensors.new ≡ map (lowered_by k) sensors.old }
{
    for sensor in sensors {
        *sensor = sensor.lower(k);
    }
}

/// Whether a power cycle leaves all sixteen as they are.
pub fn all_rest(sensors: &[Sensor; 16]) -> bool
    ensures sensors_value { result ≡ true → map power_cycle_of sensors.now ≡ sensors.now }
    ensures only { map power_cycle_of sensors.now ≡ sensors.now → result ≡ true }
{
    sensors.iter().all(|s| s.rests())
}

/// A power cycle of each sensor, which changes those alone that do not rest.
pub fn power_cycle_all(sensors: &mut [Sensor; 16])
    ensures { sensors.new ≡ map power_cycle_of sensors.old }
{
    for sensor in sensors {
        if !sensor.rests() {
            *sensor = sensor.power_cycle();
        }
    }
}

/// Whether some timer ends at the next tick.
pub fn some_ends(sensors: &[Sensor; 16]) -> bool
    ensures { result ≡ any ends_next sensors.now }
{
    sensors.iter().any(|s| s.ends_next())
}

/// The ticks that pass before some timer ends, `most` at most.
pub fn quiet_ticks(sensors: &[Sensor; 16], most: u32) -> u32
    ensures { result ≡ quiet_ticks most sensors.now }
{
    sensors.iter().fold(most, |least, s| s.quiet(least))
}

#[tactic(auto, using(crate::proofs::Quiet::few_left), unfolding(crate::specs::Parts::turn_of))]
/// One turn of an elapse: of the `left` ticks that are to pass one tick, and the quiet ticks after it. Where none is left nothing passes.
pub fn turn_once(sensors: &mut [Sensor; 16], left: u32) -> Turn
    ensures { turned_in result sensors.new ≡ turn_of left sensors.old }
{
    if left == 0 {
        return Turn { left: 0, stops: 0 };
    }
    let stop = some_ends(sensors);
    tick_all(sensors);
    let quiet = quiet_ticks(sensors, left - 1);
    lower_all(sensors, quiet);
    Turn {
        left: left - 1 - quiet,
        stops: u64::from(stop),
    }
}

/// n ticks, in at most one turn more than there are stops; the stops among them.
pub fn pass_all(sensors: &mut [Sensor; 16], n: u32) -> u64
    ensures { Passes n sensors.old result sensors.new }
{
    let mut left = n;
    let mut stops: u64 = 0;
    // stays: (4) the turns are counted by no index: each takes off as many ticks as it passes
    while 0 < left {
        let turn = turn_once(sensors, left);
        left = turn.left;
        stops += turn.stops;
    }
    stops
}

/// How many timers run.
pub fn running(sensors: &[Sensor; 16]) -> usize
    ensures { result ≡ count_of runs sensors.now }
{
    sensors.iter().filter(|s| s.runs()).count()
}

/// The sixteen conditions, FALSE at and above the count.
pub fn conditions(sensors: &[Sensor; 16], count: usize) -> [bool; 16]
    ensures { result ≡ conditions_below count sensors.now }
{
    let mut out = [false; 16];
    // stays: (4) each turn stores at the index that it reads
    for i in 0..count.min(16) {
        out[i] = sensors[i].condition;
    }
    out
}
