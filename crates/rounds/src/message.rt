// Messages: lists of coefficients, constant first.
ghost use Rattle.std.specs.Prelude.{◌≡◌};
ghost use Rattle.rounds.specs.Polynomials.{value, power_sum, coefficient};

use fields::field::Field;

// The value of the message, as a polynomial, at `x`.
pub fn evaluate<F: Field>(message: &[F], x: F) -> F
    ensures value { result ≡ value F.Field.field message.now x }
    ensures powers { result ≡ power_sum F.Field.field message.now x }
{
    message.iter().rfold(
        F::zero_element(),
        |sum, c| -> F
            ensures { result ≡ F.Field.field.add c.now (F.Field.field.mul x sum) }
        { c.plus(x.times(sum)) },
    )
}

// The coefficient of the power `i` of the variable, zero past the end of the message.
pub(crate) fn coefficient_of<F: Field>(message: &[F], i: usize) -> F
    ensures { result ≡ coefficient F.Field.field message.now i }
{
    message.get(i).copied().unwrap_or(F::zero_element())
}
