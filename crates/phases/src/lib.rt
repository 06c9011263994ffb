//! The phases of a Security Sensor (TCG Storage, Locking: 4.3.2), what moves them, and the fixed table of phase against cause.
#![tactic(auto)]

ghost use Rattle.std.specs.Prelude.{◌≡◌};
ghost use Rattle.phases.specs.Phases.{phase_number, condition_in, move_of, number_after, level_after};

use Phase::{SS0, SS1, SS2, ST0, ST1};

/// The phases, with their numbers in the listing.
#[derive(Clone, Copy, Debug, PartialEq, Eq)]
pub enum Phase {
    /// off
    SS0 = 0,
    /// waiting with level TRUE
    ST0 = 1,
    /// settled TRUE
    SS1 = 2,
    /// waiting with level FALSE
    ST1 = 3,
    /// settled FALSE
    SS2 = 4,
}

/// What moves a sensor, in the order of the table's columns. `AtOnce` is with timeout 0, `Waiting` with another timeout.
#[derive(Clone, Copy, Debug, PartialEq, Eq)]
pub enum Cause {
    /// the level turns TRUE, with timeout 0
    TrueAtOnce,
    /// the level turns TRUE, with another timeout
    TrueWaiting,
    /// the level turns FALSE, with timeout 0
    FalseAtOnce,
    /// the level turns FALSE, with another timeout
    FalseWaiting,
    /// the timer reaches 0
    TimerEnds,
    /// the sensor is enabled, with level TRUE and timeout 0
    EnabledTrueAtOnce,
    /// the sensor is enabled, with level TRUE and another timeout
    EnabledTrueWaiting,
    /// the sensor is enabled, with level FALSE
    EnabledFalse,
    /// the sensor is disabled
    Disabled,
    /// the drive goes through a power cycle
    PowerCycle,
}

/// A row for each phase and a column for each cause, in their order: the phase that is entered, or none where the sensor stays.
#[rattlefmt::skip]
const MOVES: [[Option<Phase>; 10]; 5] = [
    // turns TRUE          turns FALSE           timer ends enabled TRUE          FALSE      disabled   power cycle
    // at once   waiting   at once    waiting               at once    waiting
    [None,      None,      None,      None,      Some(SS0), Some(SS1), Some(ST0), Some(SS2), Some(SS0), Some(SS0)], // SS0
    [Some(SS1), Some(ST0), Some(SS2), Some(ST1), Some(SS1), None,      None,      None,      Some(SS0), Some(SS2)], // ST0
    [Some(SS1), Some(ST0), Some(SS2), Some(ST1), Some(SS1), None,      None,      None,      Some(SS0), Some(SS2)], // SS1
    [Some(SS1), Some(ST0), Some(SS2), Some(ST1), Some(SS2), None,      None,      None,      Some(SS0), Some(SS2)], // ST1
    [Some(SS1), Some(ST0), Some(SS2), Some(ST1), Some(SS2), None,      None,      None,      Some(SS0), Some(SS2)], // SS2: TRUE at once enters SS1, where the standard has SS0
];

impl Phase {
    /// The phase's number in the listing, 0 to 4.
    pub fn number(self) -> u8
        ensures { result ≡ phase_number self }
    {
        self as u8
    }

    /// The condition in this phase, from the former one.
    pub fn condition(self, former: bool) -> bool
        ensures { result ≡ condition_in self former }
    {
        match self {
            Phase::SS0 | Phase::SS2 => false,
            Phase::SS1 => true,
            Phase::ST0 | Phase::ST1 => former,
        }
    }

    #[tactic(auto, unfolding(crate::specs::Phases::move_of))]
    /// The phase that a cause makes this one enter; none where the sensor stays. A phase that is entered anew sets or stops the timer; where
    /// the sensor stays, the timer does too.
    pub fn moved(self, cause: Cause) -> Option<Phase>
        ensures value { result ≡ move_of self cause }
        ensures listed { number_after result (phase_number self) ≡ number_after (move_of self cause) (phase_number self) }
    {
        let row = MOVES[self as usize];
        row[cause as usize]
    }
}

impl Cause {
    /// The level after the cause, from the level before it.
    pub fn level(self, before: bool) -> bool
        ensures { result ≡ level_after self before }
    {
        match self {
            Cause::TrueAtOnce | Cause::TrueWaiting => true,
            Cause::FalseAtOnce | Cause::FalseWaiting | Cause::PowerCycle => false,
            Cause::TimerEnds
            | Cause::EnabledTrueAtOnce
            | Cause::EnabledTrueWaiting
            | Cause::EnabledFalse
            | Cause::Disabled => before,
        }
    }
}
