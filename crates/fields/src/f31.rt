// The field of the residues modulo 2147483647.
ghost use Rattle.std.specs.Prelude.{◌≡◌, ◌+◌, ◌*◌, ◌%◌, ◌<◌, ◌≤◌};
ghost use Rattle.fields.specs.F31.{f31_modulus};

use crate::residue::Residue;
use crate::residue::arithmetic::{ModuloPrime, reduced};

pub(crate) const MODULUS: u32 = 2147483647;

pub type F31 = Residue<MODULUS>;

// For the constants of P31, whose values may not name a constant of a generic impl.
pub(crate) const ZERO: F31 = F31 { value: 0 };

pub(crate) const ONE: F31 = F31 { value: 1 };

// The bits below 31.
const LOW_BITS: u64 = 2147483647;

// The bits from 31 on added to those below, since 2^31 leaves 1.
fn folded(product: u64) -> u32
    requires { product ≤ 2147483646 * 2147483646 }
    ensures below { result < 2147483647 + 2147483647 }
    ensures same { result % 2147483647 ≡ product % 2147483647 }
{
    (product & LOW_BITS) as u32 + (product >> 31) as u32
}

impl F31 {
    // The order as a constant that constants, patterns and lengths of arrays may name, which that of a generic impl is not.
    pub const ORDER: u64 = MODULUS as u64;
}

const _: () = prove!(F31::ORDER == 2147483647);

impl ModuloPrime<MODULUS> for F31 {
    const NAME: &'static str = "F31";

    ghost modulus = { f31_modulus };

    fn product(a: u32, b: u32) -> u32 {
        reduced(folded(a as u64 * b as u64), MODULUS)
    }
}
