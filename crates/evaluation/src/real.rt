// Reading an expression as a real number.
ghost use Rattle.std.specs.Prelude.{◌≡◌};
ghost use Rattle.store.specs.Memory.{memory};
ghost use Rattle.evaluation.specs.Reals.{real_part};
ghost use Rattle.evaluation.specs.Run.{ReadsReal};

use complex::Complex;
use complex::constants::pi;
use expression::node::Expression;
use expression::refusal::Refusal;
use store::reading::expression_at;

// An imaginary part that is not below 1e-16 in magnitude is refused; a NaN is below nothing.
fn real_part(z: Complex) -> Result<f64, Refusal>
    ensures { result ≡ real_part z }
{
    if -1e-16 < z.im && z.im < 1e-16 {
        return Ok(z.re);
    }
    Err(Refusal::NotReal)
}

pub fn to_real(store: &[[u64; 4]], node: usize) -> Result<f64, Refusal>
    ensures { ReadsReal (memory store.now) node result }
{
    let e = expression_at(store, node);
    match e {
        Expression::PiConstant => Ok(pi().re),
        Expression::Number(z) => real_part(z),
        Expression::Address(_, _) => Err(Refusal::NotANumber),
        Expression::FunctionCall(_, _) => Err(Refusal::NotANumber),
        Expression::Infix(_, _, _) => Err(Refusal::NotANumber),
        Expression::Prefix(_, _) => Err(Refusal::NotANumber),
        Expression::Variable(_) => Err(Refusal::NotANumber),
    }
}
