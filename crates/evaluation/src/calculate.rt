// The value of an operation on values: arithmetic by `complex`, and what the sheet's rows give for sin, cos, exp, sqrt
// and ^.
ghost use Rattle.std.specs.Prelude.{[], ◌≡◌};
ghost use Rattle.sheet.specs.Rows.{Rows};
ghost use Rattle.sheet.specs.Table.{rows_of, Held};
ghost use Rattle.expression.specs.declared.InfixOperator.{InfixOperator};
ghost use Rattle.expression.specs.declared.ExpressionFunction.{ExpressionFunction as Functions};
ghost use Rattle.evaluation.specs.declared.Evaluation.{Evaluation};
ghost use Rattle.evaluation.specs.Evaluating.{asked, cis, imaginary_unit, calculate_function, calculate_infix, calculate_prefix};
ghost use Rattle.evaluation.specs.Using.{used_for, used_by_function, used_by_infix};
ghost use Rattle.evaluation.specs.Run.{Answers, AnswersOne};

use super::{Asked, Evaluation};
use complex::Complex;
use complex::constants::zero;
use expression::refusal::Operation;
use expression::{ExpressionFunction, InfixOperator, PrefixOperator};
use sheet::{Counts, Used, function_row};

// An answer for which no row was used.
pub fn unused(value: Evaluation) -> Asked
    ensures { AnswersOne value [] result }
{
    Asked {
        value,
        used: Used {
            first: None,
            second: None,
        },
    }
}

// A row's value, or the lack of one.
fn ask(table: &[u64], counts: Counts, operation: Operation, x: Complex, y: Complex) -> Asked
    ensures { Held table.now counts → AnswersOne (asked (rows_of table.now counts) operation x y) (used_for (rows_of table.now counts) operation x y) result }
{
    let found = function_row(table, counts, operation, x, y);
    match found {
        Some((j, z)) => Asked {
            value: Evaluation::Value(z),
            used: Used {
                first: Some(j),
                second: None,
            },
        },
        None => unused(Evaluation::Need(operation, x, y)),
    }
}

fn imaginary_unit() -> Complex
    ensures { result ≡ imaginary_unit }
{
    Complex { re: 0.0, im: 1.0 }
}

// "cis x asks cos, then sin, and is cos + (0+1i)*sin." The row of cos was used also where that of sin is lacking.
fn calculate_cis(table: &[u64], counts: Counts, x: Complex) -> Asked
    ensures { Held table.now counts → Answers (cis (rows_of table.now counts) x) (used_by_function (rows_of table.now counts) Functions.Cis x) result }
{
    let asked = ask(table, counts, Operation::Cosine, x, zero());
    let first = asked.value;
    let Evaluation::Value(cosine) = first else {
        return asked;
    };
    let more = ask(table, counts, Operation::Sine, x, zero());
    let used = Used {
        first: asked.used.first,
        second: more.used.first,
    };
    let second = more.value;
    let Evaluation::Value(sine) = second else {
        return Asked {
            value: second,
            used,
        };
    };
    let value = Evaluation::Value(cosine + imaginary_unit() * sine);
    Asked { value, used }
}

pub fn calculate_function(
    table: &[u64],
    counts: Counts,
    function: ExpressionFunction,
    argument: Complex,
) -> Asked
    ensures { Held table.now counts → Answers (calculate_function (rows_of table.now counts) function argument) (used_by_function (rows_of table.now counts) function argument) result }
{
    match function {
        ExpressionFunction::Sine => ask(table, counts, Operation::Sine, argument, zero()),
        ExpressionFunction::Cis => calculate_cis(table, counts, argument),
        ExpressionFunction::Cosine => ask(table, counts, Operation::Cosine, argument, zero()),
        ExpressionFunction::Exponent => ask(table, counts, Operation::Exponent, argument, zero()),
        ExpressionFunction::SquareRoot => ask(
            table,
            counts,
            Operation::SquareRoot,
            argument,
            zero(),
        ),
    }
}

// + - * / of two values; `^` is none of these, and is asked of the sheet.
pub fn arithmetic(left: Complex, operator: InfixOperator, right: Complex) -> Complex
    ensures { (rows : Rows) → (operator ≡ InfixOperator.Caret → ⊥) → Evaluation.Value result ≡ calculate_infix rows operator left right }
{
    match operator {
        InfixOperator::Caret => left,
        InfixOperator::Plus => left + right,
        InfixOperator::Minus => left - right,
        InfixOperator::Slash => left / right,
        InfixOperator::Star => left * right,
    }
}

pub fn calculate_infix(
    table: &[u64],
    counts: Counts,
    left: Complex,
    operator: InfixOperator,
    right: Complex,
) -> Asked
    ensures { Held table.now counts → Answers (calculate_infix (rows_of table.now counts) operator left right) (used_by_infix (rows_of table.now counts) operator left right) result }
{
    if let InfixOperator::Caret = operator {
        return ask(table, counts, Operation::Power, left, right);
    }
    unused(Evaluation::Value(arithmetic(left, operator, right)))
}

pub fn calculate_prefix(operator: PrefixOperator, value: Complex) -> Complex
    ensures { result ≡ calculate_prefix operator value }
{
    match operator {
        PrefixOperator::Plus => value,
        PrefixOperator::Minus => -value,
    }
}
