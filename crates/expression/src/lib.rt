//! Security Expressions by value: the elements, and the array of them that a locking row holds.
#![tactic(auto)]

ghost use Rattle.std.specs.Prelude.{◌≡◌, ◌≤◌, [], length};
ghost use Rattle.expression.specs.Elements.{elements_in, expression_of};

/// What an element is.
// stays: (1) the operator is a code of any byte: the definition `operator_of` says what a code above 2 is worth, and the theorem
// `well-formed` and the premise `AllFit` of the round trips speak of such codes.
#[derive(Clone, Copy, Debug, PartialEq, Eq)]
pub enum Part {
    /// a reference to a sensor's row
    Reference(u32),
    /// an operator by its code: 0 AND, 1 OR, 2 NOT
    Operator(u8),
}

/// One element of an expression.
// stays: (4) the part alone would do, and the definitions of other crates would only write `e` for `e.part`.
#[derive(Clone, Copy, Debug, PartialEq, Eq)]
pub struct Element {
    pub part: Part,
}

/// The elements of a row's expression: the first `count` of the cells; the others are blank.
// stays: (1) a row is copied and has 32 cells, whatever its count says: drives that no script leaves are promised of too.
#[derive(Clone, Copy, Debug, PartialEq, Eq)]
pub struct Expression {
    pub elements: [Element; Expression::ELEMENTS],
    pub count: usize,
}

impl Expression {
    /// The most elements that an expression has.
    pub const ELEMENTS: usize = 32;

    /// No elements.
    pub fn empty() -> Expression
        ensures { result ≡ expression_of [] }
    {
        let blank = Element {
            part: Part::Operator(0),
        };
        let elements = [blank; Expression::ELEMENTS];
        Expression { elements, count: 0 }
    }

    /// The elements that count: of a count above 32 all the cells.
    pub fn as_slice(&self) -> &[Element]
        ensures value { result.now ≡ elements_in self.now }
        ensures fits { length result.now ≤ 32 }
    {
        &self.elements[..self.count.min(Expression::ELEMENTS)]
    }
}
