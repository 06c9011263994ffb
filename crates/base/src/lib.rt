//! The smallest functions that several crates above share. The rest of this crate is definitions and laws.
#![tactic(auto)]

ghost use Rattle.std.specs.Prelude.{◌≡◌};
ghost use Rattle.base.specs.Columns.{named, within};

/// Whether a mask names the column of a bit; a set of reset types is such a mask too. No column has the bit 0.
pub fn names(mask: u64, bit: u64) -> bool
    ensures { result ≡ named bit mask }
{
    // not `mask & bit != 0`, which is another answer for a bit that is no power of two: `named` is promised of every number
    bit != 0 && mask / bit % 2 == 1
}

/// Whether a value is at most `most`, where the mask names it.
pub fn in_range(mask: u64, bit: u64, value: u64, most: u64) -> bool
    ensures { result ≡ within most (named bit mask) value }
{
    !names(mask, bit) || value <= most
}
