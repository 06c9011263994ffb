//! A Set of one row: its answer, or the row that it forms, before the bands settle.
#![tactic(auto)]

ghost use Rattle.std.specs.Prelude.{not, ◌&&◌, ◌||◌, ◌≡◌, ltb, length};
ghost use Rattle.base.specs.Columns.{named};
ghost use Rattle.evaluator.specs.Formed.{is_malformed};
ghost use Rattle.token_reader.specs.Read.{most_token_bytes};
ghost use Rattle.band_columns.specs.Sets.{columns_fit};
ghost use Rattle.row_set.specs.Forming.{SetsRow};
ghost use Rattle.row_set.specs.Parts.{TokensFor, Forms};

use answer::Refusal;
use band::Row;
use band_columns::BandColumns;
use evaluator::Evaluation;
use expression::Expression;

// Whether a field of a band Set exceeds its range.
fn is_unfit(columns: BandColumns, tokens: &[u8]) -> bool
    ensures { result ≡ (not (columns_fit columns) || ltb most_token_bytes (length tokens.now)) }
{
    !columns.fit() || token_reader::MOST_BYTES < tokens.len()
}

#[tactic(auto, using(crate::proofs::Setting::tokens_read, crate::proofs::Setting::tokens_unread))]
// What the bytes of a band Set read to, where the Set names the expression.
fn expression_for(columns: BandColumns, tokens: &[u8]) -> Result<Expression, Refusal>
    ensures { TokensFor columns tokens.now result }
{
    if columns.names_expression() {
        return token_reader::read(tokens);
    }
    Ok(Expression::empty())
}

// Whether a Set names an expression that is malformed, by the value of the row that it forms.
fn is_malformed(columns: BandColumns, v: Evaluation) -> bool
    ensures { result ≡ (named 32 columns.mask && is_malformed v) }
{
    columns.names_expression() && v == Evaluation::Malformed
}

#[tactic(auto, using(crate::proofs::Setting::forming))]
// The row that a Set forms, unless its expression is malformed or it is held.
fn form(
    row: &Row,
    conditions: &[bool; 16],
    columns: BandColumns,
    expression: Expression,
) -> Result<Row, Refusal>
    ensures { Forms conditions.now columns expression row.now result }
{
    let new = band_columns::form(row, columns, expression);
    let v = new.value(conditions);
    if is_malformed(columns, v) {
        return Err(Refusal::Malformed);
    }
    if band_columns::held(&new, columns, v) {
        return Err(Refusal::Held);
    }
    Ok(new)
}

#[tactic(auto, using(crate::proofs::Setting::setting))]
/// The row that a Set makes of a row under the sixteen conditions. It is refused where a field exceeds its range, where the bytes of the
/// expression are not its tokens or hold too many elements, where the expression is malformed, and where the Set is held.
pub fn set(
    row: &Row,
    conditions: &[bool; 16],
    columns: BandColumns,
    tokens: &[u8],
) -> Result<Row, Refusal>
    ensures { SetsRow conditions.now columns tokens.now row.now result }
{
    if is_unfit(columns, tokens) {
        return Err(Refusal::OutOfRange);
    }
    let expression = expression_for(columns, tokens)?;
    form(row, conditions, columns, expression)
}
