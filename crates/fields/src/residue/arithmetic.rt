// The field of the residues modulo a prime: sums by one conditional subtraction, products as each prime has them.
ghost use Rattle.std.specs.Prelude.{◌≡◌, ◌+◌, ◌*◌, ◌%◌, ◌^◌, ◌<◌, Some, decimal, refl};
ghost use Rattle.fields.specs.Residues.{FieldModulus, field_modulo};
ghost use Rattle.std.proofs.Common.{rules, arith};

use crate::field::Field;
use crate::refusal::Refusal;
use crate::residue::Residue;
use std::fmt;

// What each prime Q has of its own: the facts that make a field of the residues modulo Q, and their product.
pub(crate) trait ModuloPrime<const Q: u32> {
    // The name of the field, under which an element shows itself for debugging.
    const NAME: &'static str;

    ghost modulus: { FieldModulus Q };

    fn product(a: u32, b: u32) -> u32
        requires first { a < Q }
        requires second { b < Q }
        ensures { result ≡ a * b % Q };
}

// A number below twice the modulus, less the modulus if it is not below it.
// Where it is below, the difference wraps around and is the greater of the two, so that no branch is needed.
pub(crate) fn reduced(number: u32, modulus: u32) -> u32
    ensures { modulus < 2 ^ 31 → number < modulus + modulus → result ≡ number % modulus }
{
    number.min(number.wrapping_sub(modulus))
}

// The element for a number below twice the modulus.
fn element<const Q: u32>(number: u32) -> Residue<Q>
where
    Residue<Q>: ModuloPrime<Q>,
    requires { number < Q + Q }
    ensures { result ≡ ⟦<Residue<Q> as Field>⟧.field.element number }
{
    Residue {
        value: reduced(number, Q),
    }
}

impl<const Q: u32> Field for Residue<Q>
where
    Residue<Q>: ModuloPrime<Q>,
{
    const ORDER: u64 = Q as u64;

    const ZERO: Residue<Q> = Residue { value: 0 };

    const ONE: Residue<Q> = Residue { value: 1 };

    ghost field = { field_modulo Q ⟦<Residue<Q> as ModuloPrime<Q>>⟧.modulus };

    ghost ORDER = { Q };

    ghost ZERO = { (field_modulo Q ⟦<Residue<Q> as ModuloPrime<Q>>⟧.modulus).zero };

    ghost ONE = { (field_modulo Q ⟦<Residue<Q> as ModuloPrime<Q>>⟧.modulus).one };

    ghost order_holds = { refl };

    ghost zero_holds = { refl };

    ghost one_holds = { refl };

    ghost equality = { λ a b. refl };

    ghost small = { first_of (Prim.search rules, Prim.grind (arith, Self.row.coded.inj)) };

    fn from_number(number: u64) -> Result<Residue<Q>, Refusal> {
        if number < Self::ORDER {
            Ok(element(number as u32))
        } else {
            Err(Refusal::NotBelowOrder)
        }
    }

    fn to_number(self) -> u64 {
        self.value as u64
    }

    fn plus(self, other: Residue<Q>) -> Residue<Q> {
        element(self.value + other.value)
    }

    fn minus(self, other: Residue<Q>) -> Residue<Q> {
        element(self.value + (Q - other.value))
    }

    fn times(self, other: Residue<Q>) -> Residue<Q> {
        Residue {
            value: <Residue<Q> as ModuloPrime<Q>>::product(self.value, other.value),
        }
    }

    fn negated(self) -> Residue<Q> {
        element(Q - self.value)
    }
}

// By hand, since a derive would show the name of the generic type for every field.
impl<const Q: u32> fmt::Debug for Residue<Q>
where
    Residue<Q>: ModuloPrime<Q>,
{
    fn fmt<W: fmt::Write>(&self, f: &mut fmt::Formatter<W>) -> fmt::Result {
        f.debug_struct(<Residue<Q> as ModuloPrime<Q>>::NAME)
            .field("value", &self.value)
            .finish()
    }
}

// An element shows itself as the decimal number that it means.
impl<const Q: u32> fmt::Display for Residue<Q>
where
    Residue<Q>: ModuloPrime<Q>,
{
    ghost output = { λ x. Some (decimal (⟦<Residue<Q> as Field>⟧.field.meaning x)) };

    fn fmt<W: fmt::Write>(&self, f: &mut fmt::Formatter<W>) -> fmt::Result {
        fmt::Display::fmt(&self.to_number(), f)
    }
}
