//! How a writer fills its output: exactly what is needed from its start, or the refusal 11 and nothing.
#![tactic(auto)]

ghost use Rattle.std.specs.Prelude.{◌≡◌};
ghost use Rattle.output.specs.Filling.{told_in, filled_by, spliced_within};

use answer::Refusal;

/// Copies items into the output from place `at` on where they fit, and else leaves it.
pub fn put<T: Copy>(out: &mut [T], at: usize, items: &[T])
    ensures { out.new ≡ spliced_within out.old at items.now }
{
    if out.len() < items.len() {
        return;
    }
    if out.len() - items.len() < at {
        return;
    }
    // by a loop: `copy_from_slice` would want `memmove` of whoever links the exported functions
    for (i, &item) in items.iter().enumerate() {
        out[at + i] = item;
    }
}

#[tactic(auto, unfolding(crate::specs::Filling::fill_answer))]
/// Writes bytes from the output's start, and tells how many. An output that is too short is left as it was.
pub fn fill(bytes: &[u8], out: &mut [u8]) -> Result<usize, Refusal>
    ensures { told_in result out.new ≡ filled_by bytes.now out.old }
{
    let count = bytes.len();
    if out.len() < count {
        return Err(Refusal::ShortBuffer);
    }
    put(out, 0, bytes);
    Ok(count)
}
