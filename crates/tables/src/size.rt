// The sizes of a memory check: d chunks of c bits in an address, and 2^t cycles.
ghost use Rattle.std.specs.Prelude.{◌≡◌, ◌+◌, ◌≤◌, T};
ghost use Rattle.tables.specs.Limits.{most_chunks, most_chunk_bits, most_cycle_bits, most_variables, within};

use fields::refusal::Refusal;

// The limits: chunks of an address, bits of a chunk, bits of a cycle's number, and variables of a table.
pub const MOST_CHUNKS: usize = 4;

pub const MOST_CHUNK_BITS: usize = 6;

pub const MOST_CYCLE_BITS: usize = 12;

pub const MOST_VARIABLES: usize = 14;

#[derive(Clone, Copy, PartialEq, Eq, Debug)]
pub struct Sizes {
    d: usize,
    c: usize,
    t: usize,
    ghost ok: { T (within d c t) },
}

impl Sizes {
    ghost use Rattle.tables.specs.Sizes.{sizes_for, k, cell_count, cycle_count};

    pub fn new(d: usize, c: usize, t: usize) -> Result<Sizes, Refusal>
        ensures { result ≡ sizes_for d c t }
    {
        if d < 1
            || d > MOST_CHUNKS
            || c < 1
            || c > MOST_CHUNK_BITS
            || t > MOST_CYCLE_BITS
            || d * c + t > MOST_VARIABLES
        {
            return Err(Refusal::OutsideLimits);
        }
        Ok(Sizes { d, c, t })
    }

    // d, the chunks of an address.
    pub fn chunks(self) -> usize
        ensures value { result ≡ self.d }
        ensures bound { (1 ≤ result) × (result ≤ most_chunks) }
    {
        self.d
    }

    // c, the bits of a chunk.
    pub fn chunk_bits(self) -> usize
        ensures value { result ≡ self.c }
        ensures bound { (1 ≤ result) × (result ≤ most_chunk_bits) }
    {
        self.c
    }

    // t, the bits of a cycle's number.
    pub fn cycle_bits(self) -> usize
        ensures value { result ≡ self.t }
        ensures bound { result ≤ most_cycle_bits }
    {
        self.t
    }

    // k, the bits of an address.
    pub fn address_bits(self) -> usize
        ensures value { result ≡ k self }
        ensures bound { (1 ≤ result) × (result + self.t ≤ most_variables) }
    {
        let Sizes { d, c, .. } = self;
        d * c
    }

    // The variables of a chunk table.
    pub fn chunk_variables(self) -> usize
        ensures value { result ≡ self.c + self.t }
        ensures bound { result ≤ most_variables }
    {
        let Sizes { c, t, .. } = self;
        c + t
    }

    // K, the number of cells.
    pub fn cells(self) -> usize
        ensures { result ≡ cell_count self }
    {
        1 << self.address_bits()
    }

    // T, the number of cycles.
    pub fn cycles(self) -> usize
        ensures { result ≡ cycle_count self }
    {
        1 << self.t
    }
}
