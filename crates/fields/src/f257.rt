// The field of the residues modulo 257. Products go through the powers of 3: the exponents are added.
ghost use Rattle.std.specs.Prelude.{◌≡◌, ◌%◌, ◌^◌, ◌<◌};
ghost use Rattle.fields.specs.F257.{f257_modulus};

use crate::f257::exponents::exponents;
use crate::f257::powers::powers;
use crate::residue::Residue;
use crate::residue::arithmetic::ModuloPrime;

// Two constant tables, each the other turned round: without one of them a product would have to search.
mod exponents;
mod powers;

const MODULUS: u32 = 257;

pub type F257 = Residue<MODULUS>;

// The power of 3 with an exponent.
#[tactic(auto, using(crate::proofs::Tables::power_at))]
fn power(exponent: usize) -> u32
    requires { exponent < 256 }
    ensures { result ≡ 3 ^ exponent % 257 }
{
    powers()[exponent] as u32
}

// The exponent below 256 with which 3 gives a number.
#[tactic(auto, using(crate::proofs::Tables::exponent_at))]
fn exponent(number: u32) -> usize
    requires positive { 0 < number }
    requires below { number < 257 }
    ensures below { result < 256 }
    ensures power { 3 ^ result % 257 ≡ number }
{
    exponents()[number as usize] as usize
}

impl F257 {
    // As the one of F31.
    pub const ORDER: u64 = MODULUS as u64;
}

const _: () = prove!(F257::ORDER == 257);

impl ModuloPrime<MODULUS> for F257 {
    const NAME: &'static str = "F257";

    ghost modulus = { f257_modulus };

    // Zero is no power of 3, and is handled apart.
    fn product(a: u32, b: u32) -> u32 {
        if a == 0 || b == 0 {
            return 0;
        }
        power((exponent(a) + exponent(b)) % 256)
    }
}
