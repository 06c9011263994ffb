// Prints the table of moves and then nine runs of one sensor, from the fresh one. A line of a run is an answer and then the sensor's
// level, phase, condition and ticks to go, as in the listing.
#![tactic(auto)]

use answer::Refusal;
use phases::{Cause, Phase};
use sensor::Sensor;
use sensor_set::SensorColumns;

// What is done to a sensor.
#[derive(Clone, Copy)]
enum Step {
    Reading(u64),
    Tick,
    PowerCycle,
    // A Set with the same value, the second number, for each column that the mask names, the first.
    Set(u64, u64),
    // A Set of every column, which enables: the thresholds, fractions and timeouts, first those of On.
    SetAll([u64; 6]),
}

fn same_columns(mask: u64, value: u64) -> SensorColumns {
    SensorColumns {
        mask,
        enabled: value,
        on_threshold: value,
        on_fraction: value,
        on_timeout: value,
        off_threshold: value,
        off_fraction: value,
        off_timeout: value,
    }
}

fn all_columns(values: [u64; 6]) -> SensorColumns {
    let [
        on_threshold,
        on_fraction,
        on_timeout,
        off_threshold,
        off_fraction,
        off_timeout,
    ] = values;
    SensorColumns {
        mask: 127,
        enabled: 1,
        on_threshold,
        on_fraction,
        on_timeout,
        off_threshold,
        off_fraction,
        off_timeout,
    }
}

impl Step {
    fn apply(self, s: Sensor) -> Result<Sensor, Refusal> {
        match self {
            Step::Reading(value) => s.reading(value),
            Step::Tick => Ok(s.tick()),
            Step::PowerCycle => Ok(s.power_cycle()),
            Step::Set(mask, value) => sensor_set::set(s, same_columns(mask, value)),
            Step::SetAll(values) => sensor_set::set(s, all_columns(values)),
        }
    }
}

// What is printed is held to the file stdout, which also shows a write that failed.
fn show(rt: &impl Print, answer: u8, s: Sensor) {
    let _ = println!(rt;
        "{answer} {} {} {} {}",
        u8::from(s.level),
        s.phase.number(),
        u8::from(s.condition),
        s.timer
    );
}

// A sensor from the fresh one on. A step that is refused leaves it as it was.
fn run(rt: &impl Print, title: &str, steps: &[Step]) {
    let _ = println!(rt; "{title}");
    let mut s = Sensor::fresh();
    for step in steps {
        let answer = match step.apply(s) {
            Ok(next) => {
                s = next;
                0
            }
            Err(refusal) => refusal.number(),
        };
        show(rt, answer, s);
    }
}

// On = Off = 5,000.
fn equal_thresholds(rt: &impl Print) {
    run(
        rt,
        "equal thresholds",
        &[
            Step::SetAll([5, 0, 0, 5, 0, 0]),
            Step::Reading(4_999),
            Step::Reading(5_000),
            Step::Reading(5_000),
            Step::Reading(4_999),
        ],
    );
}

// On 2,000, Off 3,000.
fn on_below_off(rt: &impl Print) {
    run(
        rt,
        "on below off",
        &[
            Step::SetAll([2, 0, 0, 3, 0, 0]),
            Step::Reading(2_001),
            Step::Reading(2_000),
            Step::Reading(3_000),
            Step::Reading(3_001),
            Step::Reading(2_001),
        ],
    );
}

// On 3,500, Off 2,250.
fn on_above_off(rt: &impl Print) {
    run(
        rt,
        "on above off",
        &[
            Step::SetAll([3, 500, 0, 2, 250, 0]),
            Step::Reading(3_499),
            Step::Reading(3_500),
            Step::Reading(2_250),
            Step::Reading(2_249),
            Step::Reading(4_294_967_295_999),
            Step::Reading(4_294_967_296_000),
        ],
    );
}

// Timeouts 3 and 2, each left to run.
fn waits(rt: &impl Print) {
    run(
        rt,
        "waits",
        &[
            Step::SetAll([5, 0, 3, 5, 0, 2]),
            Step::Reading(5_000),
            Step::Tick,
            Step::Tick,
            Step::Tick,
            Step::Tick,
            Step::Reading(0),
            Step::Tick,
            Step::Tick,
        ],
    );
}

// Turns while a timer runs, also to a timeout of 0, and a changed timeout that the running timer ignores.
fn turns_while_waiting(rt: &impl Print) {
    run(
        rt,
        "turns while waiting",
        &[
            Step::SetAll([5, 0, 3, 5, 0, 2]),
            Step::Reading(6_000),
            Step::Tick,
            Step::Reading(1_000),
            Step::Tick,
            Step::Reading(6_000),
            Step::Set(72, 9),
            Step::Tick,
            Step::Set(64, 0),
            Step::Reading(1_000),
            Step::Reading(6_000),
            Step::Set(1, 1),
            Step::PowerCycle,
        ],
    );
}

// Disabled: readings move the level alone. Enabling with either level, and thresholds that turn an enabled sensor.
fn disabled(rt: &impl Print) {
    run(
        rt,
        "disabled",
        &[
            Step::Reading(7),
            Step::Set(127, 0),
            Step::Set(10, 4),
            Step::Tick,
            Step::Set(1, 1),
            Step::Set(1, 0),
            Step::Set(8, 0),
            Step::Set(1, 1),
            Step::Set(18, 9),
            Step::Reading(8_999),
            Step::PowerCycle,
            Step::Set(1, 0),
            Step::PowerCycle,
            Step::Set(1, 1),
        ],
    );
}

// Sets that judge the last reading, 4,000: of thresholds and of fractions, and with the timeouts of the same Set. Sets of timeouts alone and of a
// value that was there leave the sensor as it is, a refused reading is not kept, and a power cycle forgets.
fn thresholds(rt: &impl Print) {
    run(
        rt,
        "thresholds",
        &[
            Step::SetAll([5, 0, 3, 5, 0, 2]),
            Step::Reading(4_000),
            Step::Set(18, 4),
            Step::Set(72, 9),
            Step::Tick,
            Step::Set(4, 1),
            Step::Set(32, 1),
            Step::Set(18, 3),
            Step::Reading(4_294_967_296_000),
            Step::Set(2, 3),
            Step::Set(82, 7),
            Step::PowerCycle,
            Step::Set(18, 0),
            Step::Reading(4_000),
        ],
    );
}

// The same of a disabled sensor: the level turns alone, and a Set that enables too judges first.
fn thresholds_disabled(rt: &impl Print) {
    run(
        rt,
        "thresholds, disabled",
        &[
            Step::Reading(4_000),
            Step::Set(18, 9),
            Step::Set(8, 9),
            Step::Set(19, 1),
            Step::Set(1, 0),
            Step::SetAll([9, 0, 9, 9, 0, 7]),
            Step::Set(1, 0),
            Step::Set(128, 1),
            Step::Set(18, 4),
            Step::PowerCycle,
        ],
    );
}

// Sets that are refused, one for each range, and values that are not named.
fn refused_sets(rt: &impl Print) {
    run(
        rt,
        "refused sets",
        &[
            Step::Set(128, 0),
            Step::Set(1, 2),
            Step::Set(2, 4_294_967_296),
            Step::Set(4, 1_000),
            Step::Set(8, 4_294_967_296),
            Step::Set(16, 4_294_967_296),
            Step::Set(32, 1_000),
            Step::Set(64, 4_294_967_296),
            Step::Set(0, 18_446_744_073_709_551_615),
            Step::Set(91, 1),
        ],
    );
}

fn print_move(rt: &impl Print, phase: Phase, cause: Cause) {
    let _ = match phase.moved(cause) {
        Some(entered) => print!(rt; " {}", entered.number()),
        None => print!(rt; " -"),
    };
}

const CAUSES: [Cause; 10] = [
    Cause::TrueAtOnce,
    Cause::TrueWaiting,
    Cause::FalseAtOnce,
    Cause::FalseWaiting,
    Cause::TimerEnds,
    Cause::EnabledTrueAtOnce,
    Cause::EnabledTrueWaiting,
    Cause::EnabledFalse,
    Cause::Disabled,
    Cause::PowerCycle,
];

// A row of the table: the phase entered, or - where the sensor stays.
fn row(rt: &impl Print, phase: Phase) {
    let _ = print!(rt; "{}:", phase.number());
    for cause in CAUSES {
        print_move(rt, phase, cause);
    }
    let _ = println!(rt);
}

fn main(rt: HostRuntime) {
    for phase in [Phase::SS0, Phase::ST0, Phase::SS1, Phase::ST1, Phase::SS2] {
        row(&rt, phase);
    }
    equal_thresholds(&rt);
    on_below_off(&rt);
    on_above_off(&rt);
    waits(&rt);
    turns_while_waiting(&rt);
    disabled(&rt);
    thresholds(&rt);
    thresholds_disabled(&rt);
    refused_sets(&rt);
}
