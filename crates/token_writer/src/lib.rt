//! The token form of an expression: writing it.
#![tactic(auto)]

ghost use Rattle.std.specs.Prelude.{◌≡◌, true, ◌+◌, ◌≤◌, length};
ghost use Rattle.base.specs.Spliced.{spliced};
ghost use Rattle.expression.specs.Elements.{elements_in};
ghost use Rattle.token_reader.specs.Format.{width_of, part_bytes, bytes_of};
ghost use Rattle.token_writer.specs.Write.{
  part_of,
  code_of,
  codes_fit,
  codes_of,
  elements_of,
  needed_for,
  Writes,
  ReadsBack,
};

use answer::Refusal;
use expression::{Element, Expression, Part};
use token_reader::{ELEMENT_END, LIST_END, LIST_START, OPERATOR, REFERENCE};

/// A number of the element list that has the operator AND; below it the number is a row.
// stays: (1) elements are numbers at the C interface.
pub const OPERATORS: u64 = 4_294_967_296;

/// The greatest number that is an element: NOT.
const LAST: u64 = OPERATORS + 2;

/// The element that a number of the list is.
fn part(code: u64) -> Part
    requires { code ≤ 4294967298 }
    ensures { result ≡ part_of code }
{
    if code < OPERATORS {
        return Part::Reference(code as u32);
    }
    Part::Operator((code - OPERATORS) as u8)
}

/// The number of an element in the list.
fn code(part: Part) -> u64
    ensures value { result ≡ code_of part }
    ensures back { part_of result ≡ part }
{
    match part {
        Part::Reference(row) => u64::from(row),
        Part::Operator(code) => OPERATORS + u64::from(code),
    }
}

/// Whether every number of the list is a row or an operator.
fn fit(codes: &[u64]) -> bool
    ensures { result ≡ codes_fit codes.now }
{
    codes.iter().all(|&code| code <= LAST)
}

#[tactic(auto, using(crate::proofs::Passes::size_begin, crate::proofs::Passes::size_again, crate::proofs::Passes::size_small, crate::proofs::Passes::size_done, crate::proofs::Passes::fits_at))]
/// The bytes that the list needs.
fn needed(codes: &[u64]) -> usize
    requires { (length codes.now ≤ 32) × (codes_fit codes.now ≡ true) }
    ensures { result ≡ needed_for (elements_of codes.now) }
{
    let mut total: usize = 2;
    for &code in codes {
        total += token_reader::width(part(code));
    }
    total
}

/// Writes one element from place `at` on.
// stays: (4) a slice from the place on would spare `at` here and in `output::put`, and cost `&mut out[at..]` at each of their calls.
fn put_part(out: &mut [u8], at: usize, part: Part)
    requires { at + width_of part ≤ length out.old }
    ensures { out.new ≡ spliced out.old at (part_bytes part) }
{
    match part {
        Part::Reference(row) => {
            let [a, b, c, d] = row.to_be_bytes();
            output::put(out, at, &REFERENCE);
            output::put(out, at + 7, &[a, b, c, d, ELEMENT_END]);
        }
        Part::Operator(code) => {
            output::put(out, at, &OPERATOR);
            output::put(out, at + 6, &[code, ELEMENT_END]);
        }
    }
}

#[tactic(auto, using(crate::proofs::Passes::fill_first, crate::proofs::Passes::fill_begin, crate::proofs::Passes::fill_room, crate::proofs::Passes::fill_small, crate::proofs::Passes::fill_again, crate::proofs::Passes::fill_last, crate::proofs::Passes::fill_done, crate::proofs::Passes::fits_at))]
/// Writes the whole list from the output's start.
fn fill(codes: &[u64], out: &mut [u8])
    requires { (codes_fit codes.now ≡ true) × (length (bytes_of (elements_of codes.now)) ≤ length out.old) }
    ensures { out.new ≡ spliced out.old 0 (bytes_of (elements_of codes.now)) }
{
    out[0] = LIST_START;
    let mut at = 1;
    for &code in codes {
        let part = part(code);
        put_part(out, at, part);
        at += token_reader::width(part);
    }
    out[at] = LIST_END;
}

#[tactic(auto, using(crate::proofs::Arms::fit_told, crate::proofs::Arms::room_told, crate::proofs::Arms::write_unfit, crate::proofs::Arms::write_long, crate::proofs::Arms::write_short, crate::proofs::Arms::write_done, crate::proofs::Functions::reads_back))]
/// Writes the token form of a list of elements from the output's start, and tells how many bytes. A number below 2^32 is a reference to that row,
/// and 2^32 plus a code is an operator. A refusal leaves the output as it was: 2 for a number that is no element, 4 for more than 32 elements, 11
/// for an output that is too short.
pub fn write(codes: &[u64], out: &mut [u8]) -> Result<usize, Refusal>
    ensures writes { Writes codes.now out.old result out.new }
    ensures back { ReadsBack (elements_of codes.now) result out.new }
{
    if !fit(codes) {
        return Err(Refusal::OutOfRange);
    }
    if Expression::ELEMENTS < codes.len() {
        return Err(Refusal::TooLong);
    }
    let count = needed(codes);
    if out.len() < count {
        return Err(Refusal::ShortBuffer);
    }
    fill(codes, out);
    Ok(count)
}

/// The numbers of an expression's 32 cells.
pub fn codes(elements: &[Element; 32]) -> [u64; 32]
    ensures value { result ≡ codes_of elements.now }
    ensures back { elements_of result ≡ elements.now }
{
    elements.map(|element| code(element.part))
}

#[tactic(auto, using(crate::proofs::Arms::within_list, crate::proofs::Arms::write_first, crate::proofs::Arms::back_first))]
/// Writes the token form of an expression, as `write` does of its list of elements.
pub fn write_expression(expression: &Expression, out: &mut [u8]) -> Result<usize, Refusal>
    ensures writes { Writes (codes_of (elements_in expression.now)) out.old result out.new }
    ensures back { ReadsBack (elements_in expression.now) result out.new }
{
    let list = codes(&expression.elements);
    write(&list[..expression.as_slice().len()], out)
}
