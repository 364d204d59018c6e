// The field of the pairs of elements of F31, multiplied as complex numbers.
use crate::f31::F31;

mod arithmetic;

// re + im·i, where i·i is minus one.
#[derive(Clone, Copy, PartialEq, Eq, Debug)]
pub struct P31 {
    pub re: F31,
    pub im: F31,
}
