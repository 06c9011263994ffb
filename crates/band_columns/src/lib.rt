//! The columns that a Set of a band carries: their ranges, the row that they form, and whether it is held.
#![tactic(auto)]

ghost use Rattle.std.specs.Prelude.{◌≡◌, cond, eqb, Some, None};
ghost use Rattle.base.specs.Columns.{named};
ghost use Rattle.band_columns.specs.Sets.{columns_fit, formed_row, held_by};

use band::Row;
use evaluator::Evaluation;
use expression::Expression;

/// What a Set carries beside the expression. A column is named by its bit in the mask: 1 ReadLockEnabled, 2 WriteLockEnabled,
/// 4 ReadLocked, 8 WriteLocked, 16 LockOnReset, 32 the expression. A value that is not named is not looked at.
// stays: (1) a mask beside values, since a mask with an unknown bit is refused only by `fit`, and a value that is not named is kept
#[derive(Clone, Copy)]
pub struct BandColumns {
    pub mask: u64,
    pub read_lock_enabled: u64,
    pub write_lock_enabled: u64,
    pub read_locked: u64,
    pub write_locked: u64,
    pub lock_on_reset: u64,
}

impl BandColumns {
    /// The masks of six bits are those below.
    pub const MASKS: u64 = 64;

    /// The set of all reset types.
    pub const ALL_RESETS: u64 = 15;

    #[tactic(auto, unfolding(crate::specs::Sets::columns_fit))]
    /// Whether every bit of the mask is known and every named value is in its range.
    pub fn fit(self) -> bool
        ensures { result ≡ columns_fit self }
    {
        self.mask < BandColumns::MASKS
            && base::in_range(self.mask, 1, self.read_lock_enabled, 1)
            && base::in_range(self.mask, 2, self.write_lock_enabled, 1)
            && base::in_range(self.mask, 4, self.read_locked, 1)
            && base::in_range(self.mask, 8, self.write_locked, 1)
            && base::in_range(self.mask, 16, self.lock_on_reset, BandColumns::ALL_RESETS)
    }

    /// Whether the Set names the expression.
    pub fn names_expression(self) -> bool
        ensures { result ≡ named 32 self.mask }
    {
        base::names(self.mask, 32)
    }

    // A column's value, where the mask names the column.
    fn column(self, bit: u64, value: u64) -> Option<u64>
        ensures { result ≡ cond (named bit self.mask) (Some value) None }
    {
        base::names(self.mask, bit).then_some(value)
    }

    // A boolean column after the Set: its value where the mask names the column, else as it was.
    fn flag(self, bit: u64, value: u64, former: bool) -> bool
        ensures { result ≡ cond (named bit self.mask) (eqb value 1) former }
    {
        self.column(bit, value).map_or(former, |v| v == 1)
    }
}

#[tactic(auto, unfolding(crate::specs::Sets::formed_row))]
/// The row that a Set forms of a row, with the expression that its bytes read to.
pub fn form(row: &Row, columns: BandColumns, expression: Expression) -> Row
    ensures { result ≡ formed_row columns expression row.now }
{
    Row {
        read_lock_enabled: columns.flag(1, columns.read_lock_enabled, row.read_lock_enabled),
        write_lock_enabled: columns.flag(2, columns.write_lock_enabled, row.write_lock_enabled),
        read_locked: columns.flag(4, columns.read_locked, row.read_locked),
        write_locked: columns.flag(8, columns.write_locked, row.write_locked),
        lock_on_reset: columns
            .column(16, columns.lock_on_reset)
            .unwrap_or(row.lock_on_reset),
        expression: if columns.names_expression() {
            expression
        } else {
            row.expression
        },
    }
}

/// Whether the Set that formed a row is an unlock under a TRUE expression, whose value is given.
pub fn held(row: &Row, columns: BandColumns, v: Evaluation) -> bool
    ensures { result ≡ held_by columns row.now v }
{
    let read = columns.column(4, columns.read_locked) == Some(0) && row.read_lock_enabled;
    let write = columns.column(8, columns.write_locked) == Some(0) && row.write_lock_enabled;
    (read || write) && v.is_true()
}
