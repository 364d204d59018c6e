// Why a call is refused: one case for each cause.
ghost use Rattle.std.specs.Prelude.{◌≡◌};
ghost use Rattle.fields.specs.Refusals.{reported};

#[derive(Clone, Copy, PartialEq, Eq, Debug)]
pub enum Refusal {
    // A number for an element is not below the order of the field.
    NotBelowOrder,
    // Sizes outside the limits, a chunk not from 1 to d, a plain list not of 2^n entries, or n above 14.
    OutsideLimits,
    // A sheet or an output list is too short.
    TooShort,
    // The variables of a table, or the number of chunk tables, do not fit kind and sizes.
    TablesDoNotFit,
    // A message has not one element more than the bound of its round.
    MessageLength,
    // No message, or no end value, is due at this count of challenges.
    NothingDue,
    // An index is not below 2^n, or a point has not n elements.
    OutsideTable,
    // An address is not below the number of cells: the first such operation or address, from 0.
    AddressTooLarge(usize),
    // More operations than cycles, or not one address for each cycle.
    WrongCount,
    // A plan line of another form.
    MalformedLine,
}

// The number by which the protocol knows the refusal.
impl From<Refusal> for u8 {
    ghost from_gives = { λ refusal number. number ≡ (reported refusal).number };

    fn from(refusal: Refusal) -> u8 {
        match refusal {
            Refusal::NotBelowOrder => 1,
            Refusal::OutsideLimits => 2,
            Refusal::TooShort => 3,
            Refusal::TablesDoNotFit => 4,
            Refusal::MessageLength => 5,
            Refusal::NothingDue => 6,
            Refusal::OutsideTable => 7,
            Refusal::AddressTooLarge(_) => 8,
            Refusal::WrongCount => 9,
            Refusal::MalformedLine => 10,
        }
    }
}
