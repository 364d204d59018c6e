// The counting table, whose entry i is i ones added up.
ghost use Rattle.std.specs.Prelude.{◌≡◌, ◌≤◌, fold};
ghost use Rattle.tables.specs.Limits.{most_variables};

use crate::formulas::{check_fits, check_index};
use crate::size::MOST_VARIABLES;
use crate::table::{Committed, Listed};
use fields::field::Field;
use fields::refusal::Refusal;

#[derive(Clone, Copy, PartialEq, Eq, Debug)]
pub struct Counting {
    variables: usize,
    ghost few: { variables ≤ most_variables },
}

impl Counting {
    ghost use Rattle.tables.specs.Kinds.{counting_answer};

    // The counting table of so many variables.
    pub fn new(variables: usize) -> Result<Counting, Refusal>
        ensures { result ≡ counting_answer variables }
    {
        if variables > MOST_VARIABLES {
            return Err(Refusal::OutsideLimits);
        }
        Ok(Counting { variables })
    }
}

// The number that the digits go on to write in base two, after those that wrote `start`.
fn continued<F: Field>(start: F, digits: &[F]) -> F
    ensures { result ≡ fold (λ a x. F.Field.field.add (F.Field.field.add a a) x) start digits.now }
{
    digits.iter().fold(start, |sum, x| sum.plus(sum).plus(*x))
}

impl<F: Field> Committed<F> for Counting {
    ghost use Rattle.tables.specs.Kinds.{counting_table};

    ghost table = { λ m. counting_table F.Field.field m };

    fn vars(&self) -> usize {
        self.variables
    }

    // The point read as a number in base two, its first element on top. Part by part: a chain of both takes 1.5 times as long.
    fn open(&self, head: &[F], tail: &[F]) -> Result<F, Refusal> {
        check_fits(head, tail, self.variables)?;
        Ok(continued(continued(F::zero_element(), head), tail))
    }
}

impl<F: Field> Listed<F> for Counting {
    fn entry(&self, index: usize) -> Result<F, Refusal> {
        check_index(index, self.variables)?;
        // So many ones: nothing is indexed, and a fold would be no shorter.
        let mut sum = F::zero_element();
        for _ in 0..index {
            sum = sum.plus(F::one_element());
        }
        Ok(sum)
    }
}
