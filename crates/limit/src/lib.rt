//! The value of an expression on sixteen sensors of which the first ones are there: the conditions are filled once, before the walk, and the
//! evaluator takes them and no count of sensors.
#![tactic(auto)]

ghost use Rattle.std.specs.Prelude.{◌≡◌};
ghost use Rattle.expression.specs.Elements.{elements_in};
ghost use Rattle.limit.specs.Limit.{tested_value};

use evaluator::Evaluation;
use expression::Expression;
use sensor::Sensor;

#[tactic(auto, using(crate::proofs::Limit::tied))]
/// The value of an expression where the first `present` sensors are there.
pub fn value(expression: &Expression, all: &[Sensor; 16], present: usize) -> Evaluation
    ensures { result ≡ tested_value present all.now (elements_in expression.now) }
{
    let conditions = sensors::conditions(all, present);
    evaluator::value(expression, &conditions)
}
