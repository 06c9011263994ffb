//! The value of an expression under the conditions of the sensors' rows: TRUE, FALSE or malformed.
#![tactic(auto)]

ghost use Rattle.std.specs.Prelude.{◌≡◌, ◌+◌, ◌<◌, ◌≤◌, ◌&&◌, ◌||◌, not};
ghost use Rattle.arrayvec.specs.ArrayVec.{array_vec_len};
ghost use Rattle.std.proofs.Math.Option.{some};
ghost use Rattle.evaluator.specs.Value.{condition_at, on_one, operator_of, put_element, value_of, is_true, end_of};
ghost use Rattle.evaluator.specs.Parts.{stack_in, Does, DoesTwo};
ghost use Rattle.expression.specs.Elements.{elements_in};

use arrayvec::ArrayVec;
use expression::{Expression, Part};

/// What evaluation says of a list of elements.
// stays: (4) an `Option<bool>` would not say what its None is.
#[derive(Clone, Copy, Debug, PartialEq, Eq)]
pub enum Evaluation {
    True,
    False,
    Malformed,
}

impl Evaluation {
    /// Whether it is TRUE: malformed is not.
    pub fn is_true(self) -> bool
        ensures { result ≡ is_true self }
    {
        matches!(self, Evaluation::True)
    }
}

/// The values that wait for an operator, the last one at the end: as many as there are elements, if all are references.
type Stack = ArrayVec<bool, 32>;

/// The condition of a row, FALSE where the row is absent.
fn condition(conditions: &[bool; 16], row: u32) -> bool
    ensures { result ≡ condition_at conditions.now row }
{
    conditions.get(row as usize).copied().unwrap_or(false)
}

/// An operator on the last two values, in their place. None: there are fewer.
fn on_two<F: Fn(bool, bool) -> bool>(stack: &mut Stack, operator: F) -> Option<()>
    requires callable { F.IsAlwaysCallable operator }
    requires room { array_vec_len stack.old ≤ 32 }
    ensures value { DoesTwo (F.post operator) (stack_in stack.old) result (stack_in stack.new) }
    ensures few { array_vec_len stack.new ≤ array_vec_len stack.old }
{
    let second = stack.pop()?;
    let first = stack.pop()?;
    stack.push(operator(first, second));
    Some(())
}

/// NOT of the last value, in its place. None: there is none.
fn on_one(stack: &mut Stack) -> Option<()>
    requires { array_vec_len stack.old ≤ 32 }
    ensures value { Does (on_one not) (stack_in stack.old) result (stack_in stack.new) }
    ensures few { array_vec_len stack.new ≤ array_vec_len stack.old }
{
    let value = stack.pop()?;
    stack.push(!value);
    Some(())
}

fn operate(stack: &mut Stack, code: u8) -> Option<()>
    requires { array_vec_len stack.old ≤ 32 }
    ensures value { Does (operator_of code) (stack_in stack.old) result (stack_in stack.new) }
    ensures few { array_vec_len stack.new ≤ array_vec_len stack.old }
{
    match code {
        0 => on_two(stack, |first, second| first && second),
        1 => on_two(stack, |first, second| first || second),
        2 => on_one(stack),
        _ => None,
    }
}

/// One element. None: the list is malformed.
fn step(stack: &mut Stack, part: Part, conditions: &[bool; 16]) -> Option<()>
    requires { array_vec_len stack.old < 32 }
    ensures value { Does (put_element (condition_at conditions.now) part) (stack_in stack.old) result (stack_in stack.new) }
    ensures few { array_vec_len stack.new ≤ array_vec_len stack.old + 1 }
{
    match part {
        Part::Reference(row) => {
            stack.push(condition(conditions, row));
            Some(())
        }
        Part::Operator(code) => operate(stack, code),
    }
}

/// What is left at the end: one value, or the list is malformed.
fn end_of(stack: &Stack) -> Evaluation
    ensures { result ≡ end_of (some (stack_in stack.now)) }
{
    match stack.as_slice() {
        [true] => Evaluation::True,
        [false] => Evaluation::False,
        _ => Evaluation::Malformed,
    }
}

#[tactic(auto, using(crate::proofs::Walk::none_valued, crate::proofs::Walk::ran_begin, crate::proofs::Walk::ran_done))]
/// The value of an expression under the sixteen conditions. An empty one is FALSE.
pub fn value(expression: &Expression, conditions: &[bool; 16]) -> Evaluation
    ensures { result ≡ value_of conditions.now (elements_in expression.now) }
{
    let elements = expression.as_slice();
    if elements.is_empty() {
        return Evaluation::False;
    }
    let mut stack = Stack::new();
    for element in elements {
        if step(&mut stack, element.part, conditions).is_none() {
            return Evaluation::Malformed;
        }
    }
    end_of(&stack)
}
