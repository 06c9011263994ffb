//! The sixteen locking rows of a drive: one of them, what a reset makes of them all, and which are closed.
#![tactic(auto)]

ghost use Rattle.std.specs.Prelude.{◌≡◌, map};
ghost use Rattle.base.specs.Rows.{Takes};
ghost use Rattle.band.specs.Rows.{fresh_row, reset_row, closed_on};

use band::{Row, Side};

/// One of the sixteen; a fresh row past them.
pub fn row_at(rows: &[Row; 16], at: usize) -> Row
    ensures { Takes rows.now at fresh_row result }
{
    rows.get(at).copied().unwrap_or_else(Row::fresh)
}

#[tactic(auto, using(crate::proofs::Steady::loops))]
/// Resets each row.
pub fn reset_all(rows: &mut [Row; 16], reset_type: u64)
    ensures { rows.new ≡ map (reset_row reset_type) rows.old }
{
    for row in rows {
        row.reset(reset_type);
    }
}

#[tactic(auto, using(crate::proofs::Steady::loops))]
/// Which rows have a side enabled and locked.
pub fn closed_sides(rows: &[Row; 16], side: Side) -> [bool; 16]
    ensures { result ≡ map (closed_on side) rows.now }
{
    // stays: (3) with `rows.map(|row| row.closed(side))` the equation does not prove
    let mut closed = [false; 16];
    for i in 0..16 {
        closed[i] = rows[i].closed(side);
    }
    closed
}
