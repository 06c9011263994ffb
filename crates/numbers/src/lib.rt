//! The numbers of a script: groups of seven bits, low group first, in shortest form, below 2^64.
#![tactic(auto)]

ghost use Rattle.std.specs.Prelude.{◌≡◌, drop};
ghost use Rattle.numbers.specs.Groups.{found_in, prefixed, number_at, Writes, ReadsBack};
ghost use Rattle.numbers.specs.Parts.{groups_from};

/// A group whose top bit is set, in front of the number that the groups after it make, with the place after them.
fn joined(group: u64, rest: Option<(u64, usize)>) -> Option<(u64, usize)>
    ensures { found_in result ≡ prefixed group (found_in rest) }
{
    let (value, next) = rest?;
    if value == 0 {
        return None;
    }
    if value < 144_115_188_075_855_872 {
        return Some((group % 128 + 128 * value, next));
    }
    None
}

/// The number at a place, in at most `left` groups; two of them a call.
#[tactic(auto, using(crate::proofs::Places::steps))]
fn groups_at(bytes: &[u8], at: usize, left: usize) -> Option<(u64, usize)>
    ensures { found_in result ≡ groups_from left at (drop at bytes.now) }
{
    if left == 0 {
        return None;
    }
    if bytes.len() <= at {
        return None;
    }
    let group = u64::from(bytes[at]);
    if group < 128 {
        return Some((group, at + 1));
    }
    if left == 1 {
        return None;
    }
    if bytes.len() <= at + 1 {
        return None;
    }
    let second = u64::from(bytes[at + 1]);
    if second < 128 {
        return joined(group, Some((second, at + 2)));
    }
    joined(group, joined(second, groups_at(bytes, at + 2, left - 2)))
}

/// The number at a place of the bytes, and the place after it; `None` where none in this form stands there. Most numbers have one
/// group, and cost no call.
#[tactic(auto, using(crate::proofs::Places::alone, crate::proofs::Enough::ten))]
pub fn number_at(bytes: &[u8], at: usize) -> Option<(u64, usize)>
    ensures { found_in result ≡ number_at bytes.now at }
{
    if at < bytes.len() {
        let first = u64::from(bytes[at]);
        if first < 128 {
            return Some((first, at + 1));
        }
    }
    groups_at(bytes, at, 10)
}

/// A number in shortest form: so many bytes from the start, and 0 after them.
// stays: (1) `Writes` promises the zeros after the count, and the edit something_after_the_groups holds it to them
#[derive(Clone, Copy)]
pub struct ShortForm {
    pub bytes: [u8; 10],
    pub count: usize,
}

/// The groups of a number, low group first, the top bit set when more follow.
#[tactic(auto, using(crate::proofs::Shortest::grouping))]
pub fn write(value: u64) -> ShortForm
    ensures writes { Writes value result }
    ensures back { ReadsBack value result }
{
    let mut bytes = [0; 10];
    let mut count = 0;
    let mut left = value;
    // stays: (4) a loop to a condition on what is left, as in Rust
    while 128 <= left {
        bytes[count] = (left % 128 + 128) as u8;
        count += 1;
        left /= 128;
    }
    bytes[count] = left as u8;
    ShortForm {
        bytes,
        count: count + 1,
    }
}
