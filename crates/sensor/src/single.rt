//! One sensor, by value: what each event and each tick makes of it.
ghost use Rattle.std.specs.Prelude.{◌≡◌, true};
ghost use Rattle.phases.specs.Phases.{phase_number, move_of, number_after};
ghost use Rattle.sensor.specs.Level.{thousandths, level_rule};
ghost use Rattle.sensor.specs.Single.{fresh_sensor, with_level, with_timer, keeping, forgetting, level_given, judged, timer_in, entering, after_cause, turn_cause, turned_to, reading_answer, reading_of, enable_cause, enable_of, disable_of, power_cycle_of, sensor_tick, runs, ends_next, Answers};
ghost use Rattle.sensor.specs.Parts.{lowered_by, quiet_of};

use answer::Refusal;
use phases::{Cause, Phase};

/// The columns, and then what moves: a sensor is enabled where its phase is not SS0, its timer runs where it is not 0.
#[derive(Clone, Copy, Debug, PartialEq, Eq)]
pub struct Sensor {
    /// whole units
    pub on_threshold: u32,
    /// thousandths
    pub on_fraction: u32,
    /// ticks
    pub on_timeout: u32,
    /// whole units
    pub off_threshold: u32,
    /// thousandths
    pub off_fraction: u32,
    /// ticks
    pub off_timeout: u32,
    pub level: bool,
    pub phase: Phase,
    pub condition: bool,
    /// the ticks to go
    pub timer: u32,
    /// thousandths; none before the first and after a power cycle
    pub last_reading: Option<u64>,
}

impl Sensor {
    /// The greatest reading, in thousandths.
    pub const READING: u64 = 4_294_967_295_999;

    #[tactic(auto, unfolding(crate::specs::Single::fresh_sensor))]
    /// The sensor of a fresh drive.
    pub fn fresh() -> Sensor
        ensures { result ≡ fresh_sensor }
    {
        Sensor {
            on_threshold: 0,
            on_fraction: 0,
            on_timeout: 0,
            off_threshold: 0,
            off_fraction: 0,
            off_timeout: 0,
            level: false,
            phase: Phase::SS0,
            condition: false,
            timer: 0,
            last_reading: None,
        }
    }

    /// The same sensor with another level.
    fn with_level(self, level: bool) -> Sensor
        ensures { result ≡ with_level level self }
    {
        Sensor { level, ..self }
    }

    /// The same sensor with another number of ticks to go.
    fn with_timer(self, timer: u32) -> Sensor
        ensures { result ≡ with_timer timer self }
    {
        Sensor { timer, ..self }
    }

    /// The same sensor with a value as its last reading.
    fn keep(self, value: u64) -> Sensor
        ensures { result ≡ keeping value self }
    {
        Sensor {
            last_reading: Some(value),
            ..self
        }
    }

    /// The same sensor with no last reading.
    fn forget(self) -> Sensor
        ensures { result ≡ forgetting self }
    {
        Sensor {
            last_reading: None,
            ..self
        }
    }

    /// The ticks to go of a sensor that enters a phase.
    fn timer_in(self, phase: Phase) -> u32
        ensures { result ≡ timer_in phase self }
    {
        match phase {
            Phase::ST0 => self.on_timeout,
            Phase::ST1 => self.off_timeout,
            Phase::SS0 | Phase::SS1 | Phase::SS2 => 0,
        }
    }

    /// The sensor as it enters a phase.
    fn enter(self, phase: Phase) -> Sensor
        ensures { result ≡ entering phase self }
    {
        Sensor {
            phase,
            condition: phase.condition(self.condition),
            timer: self.timer_in(phase),
            ..self
        }
    }

    #[tactic(auto, unfolding(crate::specs::Single::after_cause))]
    /// The sensor after a cause.
    pub fn step(self, cause: Cause) -> Sensor
        ensures value { result ≡ after_cause cause self }
        ensures listed { phase_number result.phase ≡ number_after (move_of self.phase cause) (phase_number self.phase) }
    {
        let level = cause.level(self.level);
        let next = self.with_level(level);
        match self.phase.moved(cause) {
            None => next,
            Some(entered) => next.enter(entered),
        }
    }

    /// Which cause a turn of the level is.
    fn turn_cause(self, level: bool) -> Cause
        ensures { result ≡ turn_cause level self }
    {
        if level {
            if self.on_timeout == 0 {
                Cause::TrueAtOnce
            } else {
                Cause::TrueWaiting
            }
        } else if self.off_timeout == 0 {
            Cause::FalseAtOnce
        } else {
            Cause::FalseWaiting
        }
    }

    // `turn_to`, `judge` and `reading` are inlined, as a call would hand the sensor over in memory, which costs more than what they do

    #[tactic(auto, unfolding(crate::specs::Single::turned_to))]
    /// The sensor once its level is `level`.
    #[inline(always)]
    pub fn turn_to(self, level: bool) -> Sensor
        ensures { result ≡ turned_to level self }
    {
        if level == self.level {
            return self;
        }
        self.step(self.turn_cause(level))
    }

    #[tactic(auto, unfolding(crate::specs::Single::level_given))]
    /// The level that the last reading gives; with none the level stays.
    fn level_given(self) -> bool
        ensures { result ≡ level_given self }
    {
        match self.last_reading {
            Some(reading) => {
                let on = in_thousandths(self.on_threshold, self.on_fraction);
                let off = in_thousandths(self.off_threshold, self.off_fraction);
                level_after(on, off, reading, self.level)
            }
            None => self.level,
        }
    }

    #[tactic(auto, unfolding(crate::specs::Single::judged))]
    /// The sensor once its last reading is judged by the level rule: what a reading and a Set of a threshold share.
    #[inline(always)]
    pub fn judge(self) -> Sensor
        ensures { result ≡ judged self }
    {
        self.turn_to(self.level_given())
    }

    #[tactic(auto, unfolding(crate::specs::Single::reading_of))]
    /// The sensor after a reading, in thousandths. `OutOfRange` above the greatest reading.
    #[inline(always)]
    pub fn reading(self, value: u64) -> Result<Sensor, Refusal>
        ensures { Answers (reading_answer value) (reading_of value self) result }
    {
        if Sensor::READING < value {
            return Err(Refusal::OutOfRange);
        }
        Ok(self.keep(value).judge())
    }

    /// Which cause enabling is.
    fn enable_cause(self) -> Cause
        ensures { result ≡ enable_cause self }
    {
        if !self.level {
            Cause::EnabledFalse
        } else if self.on_timeout == 0 {
            Cause::EnabledTrueAtOnce
        } else {
            Cause::EnabledTrueWaiting
        }
    }

    #[tactic(auto, unfolding(crate::specs::Single::enable_of))]
    /// The sensor enabled; one that is enabled stays as it is.
    pub fn enable(self) -> Sensor
        ensures { result ≡ enable_of self }
    {
        self.step(self.enable_cause())
    }

    #[tactic(auto, unfolding(crate::specs::Single::disable_of))]
    /// The sensor disabled, with no timer running.
    pub fn disable(self) -> Sensor
        ensures { result ≡ disable_of self }
    {
        self.step(Cause::Disabled)
    }

    #[tactic(auto, unfolding(crate::specs::Single::power_cycle_of, crate::specs::Single::after_cause, phases::specs::Phases::move_of))]
    /// Whether a power cycle leaves the sensor as it is: nothing TRUE, no timer, disabled or settled FALSE, and no last reading.
    pub fn rests(self) -> bool
        ensures self_value { result ≡ true → power_cycle_of self ≡ self }
        ensures only { power_cycle_of self ≡ self → result ≡ true }
    {
        !self.level
            && !self.condition
            && self.timer == 0
            && self.last_reading.is_none()
            && matches!(self.phase, Phase::SS0 | Phase::SS2)
    }

    #[tactic(auto, unfolding(crate::specs::Single::power_cycle_of))]
    /// The sensor after a power cycle: level FALSE, no timer, no last reading, settled FALSE if it was enabled; its columns stay.
    pub fn power_cycle(self) -> Sensor
        ensures { result ≡ power_cycle_of self }
    {
        if self.rests() {
            return self;
        }
        let cycled = self.step(Cause::PowerCycle);
        cycled.forget()
    }

    #[tactic(auto, unfolding(crate::specs::Single::sensor_tick))]
    /// The sensor after a tick.
    pub fn tick(self) -> Sensor
        ensures { result ≡ sensor_tick self }
    {
        match self.timer {
            0 => self,
            1 => self.step(Cause::TimerEnds),
            timer => self.with_timer(timer - 1),
        }
    }

    /// The ticks to go less k, and none where k is more: k ticks at once, where none of them ends the timer.
    pub fn lower(self, k: u32) -> Sensor
        ensures { result ≡ lowered_by k self }
    {
        self.with_timer(self.timer.saturating_sub(k))
    }

    /// Whether the timer runs.
    pub fn runs(self) -> bool
        ensures { result ≡ Rattle.sensor.specs.Single.runs self }
    {
        0 < self.timer
    }

    /// Whether the timer ends at the next tick.
    pub fn ends_next(self) -> bool
        ensures { result ≡ ends_next self }
    {
        self.timer == 1
    }

    /// The ticks before the one that ends the timer, `most` at most.
    pub fn quiet(self, most: u32) -> u32
        ensures { result ≡ quiet_of most self }
    {
        if self.timer == 0 {
            return most;
        }
        most.min(self.timer - 1)
    }
}

/// A threshold and its fraction, in thousandths.
fn in_thousandths(threshold: u32, fraction: u32) -> u64
    ensures { result ≡ thousandths threshold fraction }
{
    1000 * u64::from(threshold) + u64::from(fraction)
}

#[tactic(auto, unfolding(crate::specs::Level::level_rule))]
/// The level after a reading, by the level rule.
fn level_after(on: u64, off: u64, reading: u64, level: bool) -> bool
    ensures { result ≡ level_rule on off reading level }
{
    if off <= on {
        if on <= reading {
            return true;
        }
        if reading < off {
            return false;
        }
        return level;
    }
    if reading <= on {
        return true;
    }
    if off < reading {
        return false;
    }
    level
}
