// The one-hot table of a chunk, over a list of addresses, one for each cycle.
ghost use Rattle.std.specs.Prelude.{◌≡◌, ◌^◌, ◌<◌, ◌≤◌, ◌++◌, length};
ghost use Rattle.fields.specs.Fields.{elements};
ghost use Rattle.tables.specs.Limits.{most_variables};
ghost use Rattle.tables.specs.Formulas.{eq};
ghost use Rattle.tables.specs.Sums.{corner};
ghost use Rattle.tables.specs.Sizes.{cycle_count};

use crate::addresses::check_addresses;
use crate::formulas::{check_fits, check_index, weight};
use crate::size::Sizes;
use crate::table::{Committed, Listed};
use fields::field::Field;
use fields::refusal::Refusal;

#[derive(Clone, Copy, PartialEq, Eq, Debug)]
pub struct OneHot<'a> {
    sizes: Sizes,
    chunk: usize,
    addresses: &'a [usize],
    ghost some_chunk: { 1 ≤ chunk },
    ghost chunks: { chunk ≤ sizes.d },
    ghost counted: { length addresses.now ≡ cycle_count sizes },
}

impl<'a> OneHot<'a> {
    ghost use Rattle.tables.specs.Kinds.{chunk, one_hot_answer};

    // The table of chunk `chunk`, from 1 to d, of the addresses.
    pub fn new(sizes: Sizes, chunk: usize, addresses: &'a [usize]) -> Result<OneHot<'a>, Refusal>
        ensures { result ≡ one_hot_answer sizes chunk addresses.entry }
    {
        if chunk < 1 || chunk > sizes.chunks() {
            return Err(Refusal::OutsideLimits);
        }
        check_addresses(addresses, sizes.cells())?;
        if addresses.len() != sizes.cycles() {
            return Err(Refusal::WrongCount);
        }
        Ok(OneHot {
            sizes,
            chunk,
            addresses,
        })
    }

    // The chunk of an address.
    fn chunk_of(&self, address: usize) -> usize
        ensures value { result ≡ chunk self.now.sizes self.now.chunk address }
        ensures bound { result < 2 ^ self.now.sizes.c }
    {
        let bits = self.sizes.chunk_bits();
        let below = (self.sizes.chunks() - self.chunk) * bits;
        (address >> below) % (1 << bits)
    }
}

// eq of the bits of a number and a point in two parts.
fn weight_joined<F: Field>(number: usize, head: &[F], tail: &[F]) -> F
    requires { length (head.now ++ tail.now) ≤ most_variables }
    ensures { result ≡ eq F.Field.field (elements F.Field.field) (corner F.Field.field (length (head.now ++ tail.now)) number) (head.now ++ tail.now) }
{
    weight(number >> tail.len(), head).times(weight(number, tail))
}

impl<'a, F: Field> Committed<F> for OneHot<'a> {
    ghost use Rattle.tables.specs.Kinds.{one_hot_table};

    ghost table = { λ m. one_hot_table F.Field.field m.sizes m.chunk m.addresses.now };

    fn vars(&self) -> usize {
        self.sizes.chunk_variables()
    }

    // The sum, over the cycles, of the weight of the one entry that is one.
    fn open(&self, head: &[F], tail: &[F]) -> Result<F, Refusal> {
        check_fits(head, tail, self.sizes.chunk_variables())?;
        let cycles = self.sizes.cycles();
        let mut sum = F::zero_element();
        for (j, address) in self.addresses.iter().enumerate() {
            let index = self.chunk_of(*address) * cycles + j;
            sum = sum.plus(weight_joined(index, head, tail));
        }
        Ok(sum)
    }
}

impl<'a, F: Field> Listed<F> for OneHot<'a> {
    fn entry(&self, index: usize) -> Result<F, Refusal> {
        check_index(index, self.sizes.chunk_variables())?;
        let cycles = self.sizes.cycles();
        let (row, cycle) = (index / cycles, index % cycles);
        if self.chunk_of(self.addresses[cycle]) == row {
            Ok(F::one_element())
        } else {
            Ok(F::zero_element())
        }
    }
}
