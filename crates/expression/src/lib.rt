// The vocabulary of the Rust: the operators and functions of an expression by their names, and the small
// numbers by which the store, the tape and the texts know them; nodes, and the refusals.

#![tactic(auto)]

ghost use Rattle.std.specs.Prelude.{◌≡◌};
ghost use Rattle.expression.specs.Codes.{infix_code, infix_of, prefix_code, prefix_of, function_code, function_of};

pub mod node;
pub mod refusal;

#[derive(Clone, Copy, Debug, PartialEq, Eq)]
pub enum InfixOperator {
    Caret,
    Plus,
    Minus,
    Slash,
    Star,
}

#[derive(Clone, Copy, Debug, PartialEq, Eq)]
pub enum PrefixOperator {
    Plus,
    Minus,
}

#[derive(Clone, Copy, Debug, PartialEq, Eq)]
pub enum ExpressionFunction {
    Cis,
    Cosine,
    Exponent,
    Sine,
    SquareRoot,
}

impl From<InfixOperator> for u64 {
    ghost from_gives = { λ x n. n ≡ infix_code x };

    fn from(x: InfixOperator) -> u64 {
        match x {
            InfixOperator::Plus => 1,
            InfixOperator::Minus => 2,
            InfixOperator::Star => 3,
            InfixOperator::Slash => 4,
            InfixOperator::Caret => 5,
        }
    }
}

impl InfixOperator {
    // The operator with this number; who reads a text or a tape tests before that it is 1 to 5. No TryFrom here and below: the public
    // function answers an operator for any number, in one step, and what tests before needs no other answer.
    #[tactic(auto, unfolding(crate::specs::Codes::numbered))]
    pub fn from_code(code: u64) -> Self
        ensures { result ≡ infix_of code }
    {
        match code {
            1 => InfixOperator::Plus,
            2 => InfixOperator::Minus,
            3 => InfixOperator::Star,
            4 => InfixOperator::Slash,
            _ => InfixOperator::Caret,
        }
    }
}

impl From<PrefixOperator> for u64 {
    ghost from_gives = { λ x n. n ≡ prefix_code x };

    fn from(x: PrefixOperator) -> u64 {
        match x {
            PrefixOperator::Plus => 1,
            PrefixOperator::Minus => 2,
        }
    }
}

impl PrefixOperator {
    // The operator with this number, 1 or 2.
    #[tactic(auto, unfolding(crate::specs::Codes::numbered))]
    pub fn from_code(code: u64) -> Self
        ensures { result ≡ prefix_of code }
    {
        match code {
            1 => PrefixOperator::Plus,
            _ => PrefixOperator::Minus,
        }
    }
}

impl From<ExpressionFunction> for u64 {
    ghost from_gives = { λ x n. n ≡ function_code x };

    fn from(x: ExpressionFunction) -> u64 {
        match x {
            ExpressionFunction::Sine => 1,
            ExpressionFunction::Cosine => 2,
            ExpressionFunction::Exponent => 3,
            ExpressionFunction::SquareRoot => 4,
            ExpressionFunction::Cis => 5,
        }
    }
}

impl ExpressionFunction {
    // The function with this number, 1 to 5.
    #[tactic(auto, unfolding(crate::specs::Codes::numbered))]
    pub fn from_code(code: u64) -> Self
        ensures { result ≡ function_of code }
    {
        match code {
            1 => ExpressionFunction::Sine,
            2 => ExpressionFunction::Cosine,
            3 => ExpressionFunction::Exponent,
            4 => ExpressionFunction::SquareRoot,
            _ => ExpressionFunction::Cis,
        }
    }
}
