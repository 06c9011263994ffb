//! A Set of one sensor's columns, and the events on one sensor: the sensor after each, or what it is turned away for.
#![tactic(auto)]

ghost use Rattle.std.specs.Prelude.{◌≡◌, true, cond};
ghost use Rattle.base.specs.Columns.{named, within};
ghost use Rattle.sensor.specs.Single.{greatest_number, Answers};
ghost use Rattle.sensor_set.specs.Columns.{columns_fit, set_answer, stored_of, names_threshold, rejudged_of, switched_of, set_of, sensor_answer, sensor_after};

use answer::Refusal;
use sensor::Sensor;

/// What a Set carries. A column is named by its bit in the mask: 1 enabled, 2 on-threshold, 4 on-fraction, 8 on-timeout,
/// 16 off-threshold, 32 off-fraction, 64 off-timeout. A value that is not named is not looked at.
#[derive(Clone, Copy, Debug, PartialEq, Eq)]
pub struct SensorColumns {
    pub mask: u64,
    /// 0 or 1
    pub enabled: u64,
    /// whole units
    pub on_threshold: u64,
    /// thousandths
    pub on_fraction: u64,
    /// ticks
    pub on_timeout: u64,
    /// whole units
    pub off_threshold: u64,
    /// thousandths
    pub off_fraction: u64,
    /// ticks
    pub off_timeout: u64,
}

/// An event on one sensor.
#[derive(Clone, Copy, Debug, PartialEq, Eq)]
pub enum SensorEvent {
    /// a reading, in thousandths
    Reading { value: u64 },
    Set { columns: SensorColumns },
}

impl SensorEvent {
    /// The sensor after the event. `OutOfRange` where the reading, a named column or the mask exceeds its range.
    // inlined, as a call would hand the event and the sensor over in memory
    #[inline(always)]
    pub fn apply(self, one: Sensor) -> Result<Sensor, Refusal>
        ensures { Answers (sensor_answer self) (sensor_after self one) result }
    {
        match self {
            SensorEvent::Reading { value } => one.reading(value),
            SensorEvent::Set { columns } => set(one, columns),
        }
    }
}

impl SensorColumns {
    /// The masks of seven bits are those below.
    pub const MASKS: u64 = 128;

    /// The greatest threshold or timeout.
    pub const NUMBER: u64 = 4_294_967_295;

    /// The greatest fraction.
    pub const FRACTION: u64 = 999;

    #[tactic(auto, unfolding(crate::specs::Columns::columns_fit))]
    /// Whether every bit of the mask is known and every named value is in its range.
    pub fn fit(self) -> bool
        ensures { result ≡ columns_fit self }
    {
        let mask = self.mask;
        mask < SensorColumns::MASKS
            && base::in_range(mask, 1, self.enabled, 1)
            && base::in_range(mask, 2, self.on_threshold, SensorColumns::NUMBER)
            && base::in_range(mask, 4, self.on_fraction, SensorColumns::FRACTION)
            && base::in_range(mask, 8, self.on_timeout, SensorColumns::NUMBER)
            && base::in_range(mask, 16, self.off_threshold, SensorColumns::NUMBER)
            && base::in_range(mask, 32, self.off_fraction, SensorColumns::FRACTION)
            && base::in_range(mask, 64, self.off_timeout, SensorColumns::NUMBER)
    }

    /// Whether the mask names a threshold or a fraction.
    fn names_threshold(self) -> bool
        ensures { result ≡ names_threshold self.mask }
    {
        let mask = self.mask;
        let on = base::names(mask, 2) || base::names(mask, 4);
        let off = base::names(mask, 16) || base::names(mask, 32);
        on || off
    }

    /// A column after a Set: the value where the mask names it, else as it was.
    fn column(self, bit: u64, value: u64, former: u32) -> u32
        requires { within greatest_number (named bit self.mask) value ≡ true }
        ensures { result ≡ cond (named bit self.mask) value former }
    {
        if base::names(self.mask, bit) {
            value as u32
        } else {
            former
        }
    }
}

#[tactic(auto, unfolding(crate::specs::Columns::stored_of))]
/// The sensor with the named columns stored.
fn store(one: Sensor, columns: SensorColumns) -> Sensor
    requires { columns_fit columns ≡ true }
    ensures { result ≡ stored_of columns one }
{
    Sensor {
        on_threshold: columns.column(2, columns.on_threshold, one.on_threshold),
        on_fraction: columns.column(4, columns.on_fraction, one.on_fraction),
        on_timeout: columns.column(8, columns.on_timeout, one.on_timeout),
        off_threshold: columns.column(16, columns.off_threshold, one.off_threshold),
        off_fraction: columns.column(32, columns.off_fraction, one.off_fraction),
        off_timeout: columns.column(64, columns.off_timeout, one.off_timeout),
        ..one
    }
}

#[tactic(auto, unfolding(crate::specs::Columns::rejudged_of))]
/// The sensor once its last reading is judged again, where the Set names a threshold or a fraction.
fn rejudge(one: Sensor, columns: SensorColumns) -> Sensor
    ensures { result ≡ rejudged_of columns one }
{
    if columns.names_threshold() {
        one.judge()
    } else {
        one
    }
}

#[tactic(auto, unfolding(crate::specs::Columns::switched_of))]
/// The sensor enabled or disabled, where the Set names it.
fn switch(one: Sensor, columns: SensorColumns) -> Sensor
    ensures { result ≡ switched_of columns one }
{
    if !base::names(columns.mask, 1) {
        one
    } else if columns.enabled == 1 {
        one.enable()
    } else {
        one.disable()
    }
}

#[tactic(auto, unfolding(crate::specs::Columns::set_of))]
/// The sensor after a Set: its columns are stored, the last reading is judged by them, and then it is enabled or disabled. `OutOfRange` where the
/// columns do not fit.
pub fn set(one: Sensor, columns: SensorColumns) -> Result<Sensor, Refusal>
    ensures { Answers (set_answer columns) (set_of columns one) result }
{
    if !columns.fit() {
        return Err(Refusal::OutOfRange);
    }
    let stored = store(one, columns);
    let judged = rejudge(stored, columns);
    Ok(switch(judged, columns))
}
