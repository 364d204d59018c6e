// A polynomial of up to seven coefficients: what the proving end adds up and multiplies by lines.
ghost use Rattle.std.specs.Prelude.{◌≡◌, []};
ghost use Rattle.fields.specs.Fields.{elements};
ghost use Rattle.tables.specs.Formulas.{less, between};
ghost use Rattle.rounds.specs.Polynomials.{poly_add, poly_mul, polynomials, line as the_line, value, coefficient as the_coefficient};
ghost use Rattle.rounds.specs.Accumulators.{coefficients, AreFrom, kept, Multiplies, written, write_answer};

use crate::message::{coefficient_of, evaluate};
use fields::field::Field;
use fields::refusal::Refusal;

// The coefficients are single fields. An array of them was tried: each generic caller has to prove that it fits in memory,
// and four in the crates above did not.
#[derive(Clone, Copy, PartialEq, Eq, Debug)]
pub struct Polynomial<F> {
    c0: F,
    c1: F,
    c2: F,
    c3: F,
    c4: F,
    c5: F,
    c6: F,
}

impl<F: Field> Polynomial<F> {
    // The polynomial whose coefficient of the power `i` of the variable is `of(i)`.
    fn from_fn<G: Fn(usize) -> F>(of: G) -> Polynomial<F>
        requires { G.IsAlwaysCallable of }
        ensures { AreFrom (G.post of) 0 (coefficients result) }
    {
        Polynomial {
            c0: of(0),
            c1: of(1),
            c2: of(2),
            c3: of(3),
            c4: of(4),
            c5: of(5),
            c6: of(6),
        }
    }

    // The coefficient of the power `i` of the variable.
    fn coefficient(self, i: usize) -> F
        ensures { result ≡ the_coefficient F.Field.field (coefficients self) i }
    {
        match i {
            0 => self.c0,
            1 => self.c1,
            2 => self.c2,
            3 => self.c3,
            4 => self.c4,
            5 => self.c5,
            6 => self.c6,
            _ => F::zero_element(),
        }
    }

    // The polynomial whose coefficient at each power is `of` those of both.
    fn zip_with<G: Fn(F, F) -> F>(self, other: Polynomial<F>, of: G) -> Polynomial<F>
        requires { G.IsAlwaysCallable of }
        ensures { AreFrom (λ i. G.post of (the_coefficient F.Field.field (coefficients self) i) (the_coefficient F.Field.field (coefficients other) i)) 0 (coefficients result) }
    {
        Polynomial::from_fn(
            |i| -> F
                requires { G.IsAlwaysCallable of }
                ensures { G.post of (the_coefficient F.Field.field (coefficients self) i) (the_coefficient F.Field.field (coefficients other) i) result }
            { of(self.coefficient(i), other.coefficient(i)) },
        )
    }

    pub fn zero() -> Polynomial<F>
        ensures { coefficients result ≡ kept F.Field.field [] }
    {
        Polynomial::from_fn(|_| F::zero_element())
    }

    // The polynomial of a message, of which the first seven coefficients are taken.
    pub fn from_message(message: &[F]) -> Polynomial<F>
        ensures { coefficients result ≡ kept F.Field.field message.now }
    {
        Polynomial::from_fn(|i| coefficient_of(message, i))
    }

    pub fn value_at(self, x: F) -> F
        ensures { result ≡ value F.Field.field (coefficients self) x }
    {
        evaluate(
            &[
                self.c0, self.c1, self.c2, self.c3, self.c4, self.c5, self.c6,
            ],
            x,
        )
    }

    // The line that is `low` at zero and `high` at one.
    pub fn line(low: F, high: F) -> Polynomial<F>
        ensures two { coefficients result ≡ kept F.Field.field (the_line F.Field.field low high) }
        ensures through { (x : F) → value F.Field.field (coefficients result) x ≡ between F.Field.field (elements F.Field.field) x low high }
    {
        Polynomial::from_message(&[low, high.minus(low)])
    }

    pub fn plus(self, other: Polynomial<F>) -> Polynomial<F>
        ensures { coefficients result ≡ poly_add F.Field.field (coefficients self) (coefficients other) }
    {
        self.zip_with(other, |a, b| a.plus(b))
    }

    pub fn minus(self, other: Polynomial<F>) -> Polynomial<F>
        ensures { coefficients result ≡ less F.Field.field (polynomials F.Field.field) (coefficients self) (coefficients other) }
    {
        self.zip_with(other, |a, b| a.minus(b))
    }

    // The product with the line that is `low` at zero and `high` at one. An eighth coefficient is left out, and there is none where c6 is zero.
    pub fn times_line(self, low: F, high: F) -> Polynomial<F>
        ensures cut { coefficients result ≡ kept F.Field.field (poly_mul F.Field.field (coefficients self) (the_line F.Field.field low high)) }
        ensures whole { self.c6 ≡ F.Field.field.zero → Multiplies F.Field.field (coefficients result) (coefficients self) (the_line F.Field.field low high) }
    {
        let slope = high.minus(low);
        // By two coefficients: over P31 a closure that takes a power and looks them up takes 1.9 times as long.
        let next = |below: F, own: F| -> F
            ensures { result ≡ F.Field.field.add (F.Field.field.mul below slope) (F.Field.field.mul own low) }
        { below.times(slope).plus(own.times(low)) };
        Polynomial {
            c0: self.c0.times(low),
            c1: next(self.c0, self.c1),
            c2: next(self.c1, self.c2),
            c3: next(self.c2, self.c3),
            c4: next(self.c3, self.c4),
            c5: next(self.c4, self.c5),
            c6: next(self.c5, self.c6),
        }
    }

    // Writes the first `count` coefficients into the first places of the output.
    // The count stands beside the output: the answer to an output that is too short for it is promised.
    pub fn write(self, count: usize, output: &mut [F]) -> Result<(), Refusal>
        ensures answer { result ≡ write_answer F.Field.field count output.old }
        ensures places { output.new ≡ written F.Field.field count (coefficients self) output.old }
    {
        if output.len() < count {
            return Err(Refusal::TooShort);
        }
        for (i, place) in output[..count].iter_mut().enumerate() {
            *place = self.coefficient(i);
        }
        Ok(())
    }
}
