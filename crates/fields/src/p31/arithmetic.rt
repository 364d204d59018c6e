// Sums by parts; a product is four products of the parts.
ghost use Rattle.fields.specs.P31.{p31_pairs, p31_field};
ghost use Rattle.std.specs.Prelude.{Some, decimal, refl};
ghost use Rattle.fields.specs.F31.{f31_field};
ghost use Rattle.fields.specs.Laws.Pairs.{pair_equality};
ghost use Rattle.std.proofs.Common.{rules};

use crate::f31;
use crate::f31::F31;
use crate::field::Field;
use crate::p31::P31;
use crate::refusal::Refusal;
use std::fmt;

#[tactic(auto, using(crate::proofs::Pairs::p31_same))]
impl Field for P31 {
    const ORDER: u64 = f31::MODULUS as u64 * f31::MODULUS as u64;

    const ZERO: P31 = P31 {
        re: f31::ZERO,
        im: f31::ZERO,
    };

    const ONE: P31 = P31 {
        re: f31::ONE,
        im: f31::ZERO,
    };

    ghost field = { p31_field };

    ghost ORDER = { p31_field.order };

    ghost ZERO = { p31_field.zero };

    ghost ONE = { p31_field.one };

    ghost order_holds = { refl };

    ghost zero_holds = { refl };

    ghost one_holds = { refl };

    ghost equality = { pair_equality f31_field p31_pairs };

    ghost small = { Prim.search rules };

    // The remainder and the quotient by the order of F31.
    fn from_number(number: u64) -> Result<P31, Refusal> {
        Ok(P31 {
            re: F31::from_number(number % F31::ORDER)?,
            im: F31::from_number(number / F31::ORDER)?,
        })
    }

    fn to_number(self) -> u64 {
        self.re.to_number() + self.im.to_number() * F31::ORDER
    }

    // Sums and differences: each is one line for each part.
    fn plus(self, other: P31) -> P31 {
        P31 {
            re: self.re.plus(other.re),
            im: self.im.plus(other.im),
        }
    }

    fn minus(self, other: P31) -> P31 {
        P31 {
            re: self.re.minus(other.re),
            im: self.im.minus(other.im),
        }
    }

    fn times(self, other: P31) -> P31 {
        P31 {
            re: self.re.times(other.re).minus(self.im.times(other.im)),
            im: self.re.times(other.im).plus(self.im.times(other.re)),
        }
    }

    fn negated(self) -> P31 {
        P31 {
            re: self.re.negated(),
            im: self.im.negated(),
        }
    }
}

// An element shows itself as the decimal number that it means. Display is foreign, so one impl for every field is refused.
impl fmt::Display for P31 {
    ghost output = { λ x. Some (decimal (p31_field.meaning x)) };

    fn fmt<W: fmt::Write>(&self, f: &mut fmt::Formatter<W>) -> fmt::Result {
        fmt::Display::fmt(&self.to_number(), f)
    }
}
