//! One locking row, or band: whether a side of it is closed, and what settling and a reset make of it.
#![tactic(auto)]

ghost use Rattle.std.specs.Prelude.{◌≡◌, true};
ghost use Rattle.band.specs.Rows.{fresh_row, closed_on, value_in, lock_under, settle_row, reset_bit, in_set, reset_row};
ghost use Rattle.band.specs.Parts.{is_lockable, locks_by};

use answer::Refusal;
use evaluator::Evaluation;
use expression::Expression;

/// A side of a row: what its two lock columns guard.
#[derive(Clone, Copy, Debug, PartialEq, Eq)]
pub enum Side {
    Read,
    Write,
}

impl TryFrom<u64> for Side {
    ghost use Rattle.band.specs.Directions.{SideRead};

    type Error = Refusal;

    ghost try_from_gives = { SideRead };

    /// The side that a transfer's direction reads or writes: 0 read, 1 write, any other number is out of range.
    fn try_from(direction: u64) -> Result<Side, Refusal> {
        match direction {
            0 => Ok(Side::Read),
            1 => Ok(Side::Write),
            _ => Err(Refusal::OutOfRange),
        }
    }
}

/// A row's columns. LockOnReset is a set as bits: 1 power cycle, 2 hardware, 4 hot plug, 8 programmatic.
#[derive(Clone, Copy)]
pub struct Row {
    pub read_lock_enabled: bool,
    pub write_lock_enabled: bool,
    pub read_locked: bool,
    pub write_locked: bool,
    // stays: (1) a number, since a Set gives one and `ResetTypes.no_other` speaks of sets that have more than the four bits
    pub lock_on_reset: u64,
    pub expression: Expression,
}

impl Row {
    /// The greatest reset type: 0 power cycle, 1 hardware, 2 hot plug, 3 programmatic.
    pub const LAST_RESET: u64 = 3;

    #[tactic(auto, unfolding(crate::specs::Rows::fresh_row))]
    /// The row of a fresh drive.
    pub fn fresh() -> Row
        ensures { result ≡ fresh_row }
    {
        Row {
            read_lock_enabled: false,
            write_lock_enabled: false,
            read_locked: false,
            write_locked: false,
            lock_on_reset: 1,
            expression: Expression::empty(),
        }
    }

    /// Whether a side is enabled and locked: what refuses a transfer.
    pub fn closed(&self, side: Side) -> bool
        ensures { result ≡ closed_on side self.now }
    {
        match side {
            Side::Read => self.read_lock_enabled && self.read_locked,
            Side::Write => self.write_lock_enabled && self.write_locked,
        }
    }

    /// The value of the row's expression under the sixteen conditions.
    pub fn value(&self, conditions: &[bool; 16]) -> Evaluation
        ensures { result ≡ value_in conditions.now self.now }
    {
        evaluator::value(&self.expression, conditions)
    }

    /// Whether some side is enabled and not locked: only then can settling or a reset change the row.
    pub fn lockable(&self) -> bool
        ensures { result ≡ is_lockable self.now }
    {
        let read = self.read_lock_enabled && !self.read_locked;
        let write = self.write_lock_enabled && !self.write_locked;
        read || write
    }

    /// Whether a reset of a type, if there is one, and then settling lock what is enabled: the type is in the row's set, or the expression is TRUE.
    pub fn locks(&self, reset: Option<u64>, conditions: &[bool; 16]) -> bool
        ensures { result ≡ locks_by conditions.now reset self.now }
    {
        reset.is_some_and(|reset_type| in_set(self.lock_on_reset, reset_type))
            || self.value(conditions).is_true()
    }

    /// Locks each side that is enabled.
    pub fn lock(&mut self)
        ensures { self.new ≡ lock_under true self.old }
    {
        self.read_locked = self.read_locked || self.read_lock_enabled;
        self.write_locked = self.write_locked || self.write_lock_enabled;
    }

    #[tactic(auto, using(crate::proofs::Settling::settling))]
    /// Settles the row under the sixteen conditions: each side that is enabled is locked where the expression is TRUE.
    pub fn settle(&mut self, conditions: &[bool; 16])
        ensures { self.new ≡ settle_row conditions.now self.old }
    {
        if self.lockable() && self.value(conditions).is_true() {
            self.lock();
        }
    }

    #[tactic(auto, unfolding(crate::specs::Rows::reset_row))]
    /// Resets the row: each side that is enabled is locked where the row's set has the type. What is no type is in no set.
    pub fn reset(&mut self, reset_type: u64)
        ensures { self.new ≡ reset_row reset_type self.old }
    {
        if in_set(self.lock_on_reset, reset_type) {
            self.lock();
        }
    }
}

// The bit of a reset type in a LockOnReset set.
fn reset_bit(reset_type: u64) -> u64
    ensures { result ≡ reset_bit reset_type }
{
    // stays: (1) a reset's type is any number, as an event gives it, and `ResetTypes.no_other` promises that what is no type is in no set
    match reset_type {
        0 => 1,
        1 => 2,
        2 => 4,
        3 => 8,
        _ => 0,
    }
}

// Whether a LockOnReset set has a reset type.
fn in_set(set: u64, reset_type: u64) -> bool
    ensures { result ≡ in_set set reset_type }
{
    base::names(set, reset_bit(reset_type))
}
