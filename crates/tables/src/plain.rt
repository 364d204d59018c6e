// The plain list: a table read where the caller has it.
ghost use Rattle.std.specs.Prelude.{◌≡◌, true, length};
ghost use Rattle.tables.specs.Tables.{is_table};
ghost use Rattle.tables.specs.Kinds.{plain_table, plain_answer};

use crate::formulas::{check_fits, check_index, extension_joined, variables_of};
use crate::table::{Committed, Listed};
use fields::field::Field;
use fields::refusal::Refusal;

// No invariant: what it means is defined for any contents. Each call copies the slice to a local, and reads that one list.
#[derive_where(Clone, Copy)]
#[derive_where(PartialEq, Eq, Debug; F)]
pub struct PlainList<'a, F> {
    items: &'a [F],
}

impl<'a, F: Field> PlainList<'a, F> {
    // The table with the entries `items`.
    pub fn new(items: &'a [F]) -> Result<PlainList<'a, F>, Refusal>
        ensures answer { result ≡ plain_answer items.entry }
        ensures entries { is_table (length items.now) ≡ true → (plain_table F.Field.field items.now).entries ≡ items.now }
    {
        if items.len() == 1 << variables_of(items.len()) {
            Ok(PlainList { items })
        } else {
            Err(Refusal::OutsideLimits)
        }
    }
}

impl<'a, F: Field> Committed<F> for PlainList<'a, F> {
    ghost table = { λ m. plain_table F.Field.field m.items.now };

    fn vars(&self) -> usize {
        let items = self.items;
        variables_of(items.len())
    }

    fn open(&self, head: &[F], tail: &[F]) -> Result<F, Refusal> {
        let items = self.items;
        let n = variables_of(items.len());
        check_fits(head, tail, n)?;
        if items.is_empty() {
            return Ok(F::zero_element());
        }
        extension_joined(&items[..1 << n], head, tail)
    }
}

impl<'a, F: Field> Listed<F> for PlainList<'a, F> {
    fn entry(&self, index: usize) -> Result<F, Refusal> {
        let items = self.items;
        check_index(index, variables_of(items.len()))?;
        Ok(items.get(index).copied().unwrap_or(F::zero_element()))
    }
}
