// A field, as the tables and both ends of the protocol use it.
ghost use Rattle.std.specs.Prelude.{ℕ, ◌≡◌, ◌^◌, ◌≤◌, ◌==◌};
ghost use prog.Memory.{size};
ghost use denote.Param.{layout};
ghost use Rattle.fields.specs.Fields.{FieldOf, element_for};

use crate::refusal::Refusal;

pub trait Field: Copy + Eq {
    // The operations on elements, what elements mean, and the laws.
    ghost field: { FieldOf Self };

    const ORDER: u64;

    const ZERO: Self;

    const ONE: Self;

    ghost ORDER: { ℕ };

    ghost ZERO: { Self };

    ghost ONE: { Self };

    // The three constants as calls: an answer that cites a call's promise is shorter than one that cites a law.
    fn field_order() -> u64
        ensures { result ≡ field.order }
    {
        Self::ORDER
    }

    fn zero_element() -> Self
        ensures { result ≡ field.zero }
    {
        Self::ZERO
    }

    fn one_element() -> Self
        ensures { result ≡ field.one }
    {
        Self::ONE
    }

    // The element that means `number`, which has to be below the order.
    // This and `to_number` are methods, and no TryFrom and From: those promise relations of their own, which laws would have to tie to the field.
    fn from_number(number: u64) -> Result<Self, Refusal>
        ensures { result ≡ element_for field number };

    // The whole number that the element means.
    fn to_number(self) -> u64
        ensures { result ≡ field.meaning self };

    fn plus(self, other: Self) -> Self
        ensures { result ≡ field.add self other };

    fn minus(self, other: Self) -> Self
        ensures { result ≡ field.add self (field.neg other) };

    fn times(self, other: Self) -> Self
        ensures { result ≡ field.mul self other };

    fn negated(self) -> Self
        ensures { result ≡ field.neg self };

    // The constants are what the field says.
    ghost order_holds: { ORDER ≡ field.order };

    ghost zero_holds: { ZERO ≡ field.zero };

    ghost one_holds: { ONE ≡ field.one };

    // Elements are equal where they mean the same number.
    ghost equality: { (a b : Self) → Self.eq a b ≡ (field.meaning a == field.meaning b) };

    // An element takes few bytes, so that the coordinates of a point fit in memory.
    ghost small: { size (layout Self.row) ≤ 2 ^ 32 };
}
