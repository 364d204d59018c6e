// The tables of a job, borrowed, and whether they fit its sizes.
ghost use Rattle.std.specs.Prelude.{◌≡◌, map};
ghost use Rattle.stages.specs.Models.{kind_of, plan_of, chunks_fit, tables_fit};

use crate::plan::{Kind, Plan};
use fields::field::Field;
use tables::size::Sizes;
use tables::table::Committed;

// The chunk tables stand in the order of their chunks. The kind of the job is the case.
#[derive(Drop)]
pub enum Tables<'a, A, M, V> {
    Shout {
        ra: &'a [A],
        val: &'a M,
        rv: &'a V,
    },
    Twist {
        ra: &'a [A],
        wa: &'a [A],
        inc: &'a M,
        rv: &'a V,
        wv: &'a V,
    },
}

// Whether there is a chunk table for each chunk, and each has its variables.
fn chunks_fit<F: Field, A: Committed<F>>(sizes: Sizes, tables: &[A]) -> bool
    ensures { result ≡ chunks_fit sizes (map A.Committed.table tables.now) }
{
    let variables = sizes.chunk_variables();
    tables.len() == sizes.chunks() && tables.iter().all(|table| table.vars() == variables)
}

impl<'a, A, M, V> Tables<'a, A, M, V> {
    pub fn kind(&self) -> Kind
        ensures { result ≡ kind_of self.now }
    {
        match self {
            Tables::Shout { .. } => Kind::Shout,
            Tables::Twist { .. } => Kind::Twist,
        }
    }

    // The plan of the job, by its sizes.
    pub(crate) fn plan(&self, sizes: Sizes) -> Plan
        ensures { result ≡ plan_of sizes self.now }
    {
        Plan {
            kind: self.kind(),
            sizes,
        }
    }
}

// Whether the tables fit the sizes.
pub fn tables_fit<F: Field, A: Committed<F>, M: Committed<F>, V: Committed<F>>(
    sizes: Sizes,
    tables: &Tables<A, M, V>,
) -> bool
    ensures { result ≡ tables_fit A.Committed.table M.Committed.table V.Committed.table sizes tables.now }
{
    let (k, t) = (sizes.address_bits(), sizes.cycle_bits());
    match tables {
        Tables::Shout { ra, val, rv } => chunks_fit(sizes, ra) && val.vars() == k && rv.vars() == t,
        Tables::Twist {
            ra,
            wa,
            inc,
            rv,
            wv,
        } => {
            chunks_fit(sizes, ra)
                && chunks_fit(sizes, wa)
                && inc.vars() == k + t
                && rv.vars() == t
                && wv.vars() == t
        }
    }
}
