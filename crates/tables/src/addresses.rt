// Checking that addresses are in range.
ghost use Rattle.std.specs.Prelude.{◌≡◌, ℕ, Bool, Ok};
ghost use Rattle.tables.specs.Kinds.{if_all, address_below};

use fields::refusal::Refusal;

// What has addresses of cells in it.
pub(crate) trait Addressed {
    // Whether all of them are below a number of cells.
    ghost below: { ℕ → Self → Bool };

    fn is_below(&self, cells: usize) -> bool
        ensures { result ≡ below cells self.now };
}

impl Addressed for usize {
    ghost below = { address_below };

    fn is_below(&self, cells: usize) -> bool {
        *self < cells
    }
}

// Refuses the first of the items with an address that is not below a number of cells.
pub(crate) fn check_addresses<T: Addressed>(items: &[T], cells: usize) -> Result<(), Refusal>
    ensures { result ≡ if_all (T.below cells) 0 items.now (Ok tt) }
{
    // Two arms: `map_or` would say the same in one longer line.
    match items.iter().position(|item| !item.is_below(cells)) {
        Some(j) => Err(Refusal::AddressTooLarge(j)),
        None => Ok(()),
    }
}
