//! The token form of an expression: reading it.
#![tactic(auto)]

ghost use Rattle.std.specs.Prelude.{◌≡◌, ◌≤◌, length, IfSome};
ghost use Rattle.expression.specs.Elements.{most_elements};
ghost use Rattle.token_reader.specs.Format.{is_end, reference_in, operator_in, part_in, width_of};
ghost use Rattle.token_reader.specs.Read.{read_elements, Tells, Reads, WrittenAgain};

use answer::Refusal;
use expression::{Element, Expression, Part};

/// The most bytes that are read.
pub const MOST_BYTES: usize = 1024;

/// The byte before the elements.
pub const LIST_START: u8 = 0xF0;

/// The byte after the elements, and the last one.
pub const LIST_END: u8 = 0xF1;

/// The first byte of an element.
pub const ELEMENT_START: u8 = 0xF2;

/// The last byte of an element.
pub const ELEMENT_END: u8 = 0xF3;

/// What a reference begins with, before the four bytes of its row.
pub const REFERENCE: [u8; 7] = [0xF2, 0xA4, 0x00, 0x00, 0x0C, 0x0E, 0xA4];

/// What an operator begins with, before the byte of its code.
pub const OPERATOR: [u8; 6] = [0xF2, 0xA4, 0x00, 0x00, 0x04, 0x0E];

/// The reference whose first seven bytes are right.
fn reference_in(bytes: &[u8]) -> Option<Part>
    ensures value { result ≡ reference_in bytes.now }
    ensures within { IfSome result (λ part. width_of part ≤ length bytes.now) }
{
    if bytes.len() < 12 || bytes[11] != ELEMENT_END {
        return None;
    }
    let row = u32::from_be_bytes([bytes[7], bytes[8], bytes[9], bytes[10]]);
    Some(Part::Reference(row))
}

/// The operator whose first six bytes are right.
fn operator_in(bytes: &[u8]) -> Option<Part>
    ensures value { result ≡ operator_in bytes.now }
    ensures within { IfSome result (λ part. width_of part ≤ length bytes.now) }
{
    if bytes.len() < 8 || bytes[7] != ELEMENT_END || 2 < bytes[6] {
        return None;
    }
    Some(Part::Operator(bytes[6]))
}

#[tactic(auto, using(crate::proofs::Prefix::reference_first, crate::proofs::Prefix::operator_first, crate::proofs::Prefix::neither_first))]
/// The element that begins the bytes.
fn part_in(bytes: &[u8]) -> Option<Part>
    ensures value { result ≡ part_in bytes.now }
    ensures within { IfSome result (λ part. width_of part ≤ length bytes.now) }
{
    if bytes.starts_with(&REFERENCE) {
        return reference_in(bytes);
    }
    if bytes.starts_with(&OPERATOR) {
        return operator_in(bytes);
    }
    None
}

#[tactic(auto, unfolding(crate::specs::Format::is_end))]
/// Whether the bytes are the list's end and nothing after it.
fn is_end(bytes: &[u8]) -> bool
    ensures { result ≡ is_end bytes.now }
{
    bytes.len() == 1 && bytes[0] == LIST_END
}

/// The bytes that an element takes.
pub fn width(part: Part) -> usize
    ensures { result ≡ width_of part }
{
    match part {
        Part::Reference(_) => 12,
        Part::Operator(_) => 8,
    }
}

#[tactic(auto, using(crate::proofs::Listing::reading_begin, crate::proofs::Listing::reading_again))]
/// The elements and the list's end, which are all the bytes after the list's start.
fn elements_in(bytes: &[u8]) -> Result<Expression, Refusal>
    ensures { Tells (read_elements most_elements bytes.now) result }
{
    let mut expression = Expression::empty();
    let mut rest = bytes;
    while !is_end(rest) {
        if expression.count == Expression::ELEMENTS {
            if rest.starts_with(&[ELEMENT_START]) {
                return Err(Refusal::TooLong);
            }
            return Err(Refusal::NotTokens);
        }
        let Some(part) = part_in(rest) else {
            return Err(Refusal::NotTokens);
        };
        expression.elements[expression.count] = Element { part };
        expression.count += 1;
        rest = &rest[width(part)..];
    }
    Ok(expression)
}

#[tactic(auto, using(crate::proofs::Listing::too_many, crate::proofs::Listing::no_start, crate::proofs::Listing::list_tells, crate::proofs::Again::slice_again))]
/// The expression that the bytes are the token form of. Refusals: 2 for more than 1,024 bytes, 3 for bytes that break the token form, 4 for a
/// thirty-third element; of 3 and 4 the one that is met first.
pub fn read(bytes: &[u8]) -> Result<Expression, Refusal>
    ensures reads { Reads bytes.now result }
    ensures again { WrittenAgain bytes.now result }
{
    if MOST_BYTES < bytes.len() {
        return Err(Refusal::OutOfRange);
    }
    if !bytes.starts_with(&[LIST_START]) {
        return Err(Refusal::NotTokens);
    }
    elements_in(&bytes[1..])
}
