// The run maker: from operations to the lists of a right run.
ghost use Rattle.std.specs.Prelude.{◌≡◌, ◌+◌, ◌*◌, ◌<◌, ◌≤◌, length, take, Ok, slice_index, slice_set};
ghost use Rattle.fields.specs.Fields.{less};
ghost use Rattle.tables.specs.Sizes.{cell_count, cycle_count};
ghost use Rattle.tables.specs.Tables.{entry};
ghost use Rattle.tables.specs.Run.{cell};
ghost use Rattle.tables.specs.Maker.{Room, Fitting, SameLists, placed, if_made, has_room, addressed_below, operations_answer, run_answer, RunOf, read_at, write_at, value_at, rv_at, inc_at};

use crate::addresses::{Addressed, check_addresses};
use crate::size::Sizes;
use fields::field::Field;
use fields::refusal::Refusal;

// A cycle of a run: a cell is read, and then one is written.
#[derive(Clone, Copy, PartialEq, Eq, Debug)]
pub struct Operation<F> {
    pub read: usize,
    pub write: usize,
    pub value: F,
}

impl<F> Addressed for Operation<F> {
    ghost below = { addressed_below };

    fn is_below(&self, cells: usize) -> bool {
        self.read < cells && self.write < cells
    }
}

// Writes zero at the first places of a list.
fn clear<F: Field>(list: &mut [F], count: usize)
    requires { count ≤ length list.old }
    ensures { list.new ≡ placed count (λ _. F.Field.field.zero) list.old }
{
    list[..count].fill_with(|| F::zero_element());
}

// The lists that a run is written to: the addresses read and written, RV, WV and INC.
// Five lists and not one of cycles: who reads a run takes each as a table of its own, and INC has other places.
#[derive(Drop, Debug)]
pub struct RunLists<'a, F> {
    pub reads: &'a mut [usize],
    pub writes: &'a mut [usize],
    pub rv: &'a mut [F],
    pub wv: &'a mut [F],
    pub inc: &'a mut [F],
}

impl<'a, F: Field> RunLists<'a, F> {
    // Whether the lists are long enough.
    fn has_room(&self, sizes: Sizes) -> bool
        ensures { result ≡ has_room sizes self.now }
    {
        let cycles = sizes.cycles();
        cycles <= self.reads.len()
            && cycles <= self.writes.len()
            && cycles <= self.rv.len()
            && cycles <= self.wv.len()
            && sizes.cells() * cycles <= self.inc.len()
    }

    // What a cell holds before a cycle, from the writes of the cycles before.
    fn held(&self, address: usize, cycle: usize) -> F
        requires { (cycle ≤ length self.now.writes.now) × (cycle ≤ length self.now.wv.now) }
        ensures { result ≡ cell F.Field.field (λ j. slice_index self.now.writes.now j) (entry F.Field.field self.now.wv.now) address cycle }
    {
        let writes = &self.writes[..cycle];
        // Two arms: in a closure the index would have to be proved again.
        match writes.iter().rposition(|cell| *cell == address) {
            Some(j) => self.wv[j],
            None => F::zero_element(),
        }
    }

    // Enters one cycle: what the read cell holds, what is written, and by how much the written cell grows.
    fn enter_cycle(&mut self, sizes: Sizes, cycle: usize, operation: Operation<F>)
        requires lengths { (cycle < length self.old.reads.now) × (cycle < length self.old.writes.now) × (cycle < length self.old.rv.now) × (cycle < length self.old.wv.now) }
        requires place { operation.write * cycle_count sizes + cycle < length self.old.inc.now }
        ensures same_lists { SameLists self.old self.new }
        ensures reads { self.new.reads.now ≡ slice_set self.old.reads.now cycle operation.read }
        ensures writes { self.new.writes.now ≡ slice_set self.old.writes.now cycle operation.write }
        ensures rv { self.new.rv.now ≡ slice_set self.old.rv.now cycle (cell F.Field.field (λ j. slice_index self.old.writes.now j) (entry F.Field.field self.old.wv.now) operation.read cycle) }
        ensures wv { self.new.wv.now ≡ slice_set self.old.wv.now cycle operation.value }
        ensures inc { self.new.inc.now ≡ slice_set self.old.inc.now (operation.write * cycle_count sizes + cycle) (less F.Field.field operation.value (cell F.Field.field (λ j. slice_index self.old.writes.now j) (entry F.Field.field self.old.wv.now) operation.write cycle)) }
    {
        let read = self.held(operation.read, cycle);
        let old = self.held(operation.write, cycle);
        self.reads[cycle] = operation.read;
        self.writes[cycle] = operation.write;
        self.wv[cycle] = operation.value;
        self.rv[cycle] = read;
        self.inc[operation.write * sizes.cycles() + cycle] = operation.value.minus(old);
    }

    // Writes the run of operations that fit the sizes to lists that are long enough.
    fn fill(&mut self, sizes: Sizes, operations: &[Operation<F>])
        requires lengths { Room sizes self.old }
        requires operations { Fitting sizes operations.now }
        ensures same_lists { SameLists self.old self.new }
        ensures reads { self.new.reads.now ≡ placed (cycle_count sizes) (read_at F.Field.field operations.now) self.old.reads.now }
        ensures writes { self.new.writes.now ≡ placed (cycle_count sizes) (write_at F.Field.field operations.now) self.old.writes.now }
        ensures rv { self.new.rv.now ≡ placed (cycle_count sizes) (rv_at F.Field.field operations.now) self.old.rv.now }
        ensures wv { self.new.wv.now ≡ placed (cycle_count sizes) (value_at F.Field.field operations.now) self.old.wv.now }
        ensures inc { self.new.inc.now ≡ placed (cell_count sizes * cycle_count sizes) (inc_at F.Field.field sizes operations.now) self.old.inc.now }
    {
        let cycles = sizes.cycles();
        let places = sizes.cells() * cycles;
        clear(self.inc, places);
        // The operations in their order, each with the number of its cycle.
        for (j, operation) in operations.iter().enumerate() {
            self.enter_cycle(sizes, j, *operation);
        }
        let filling = Operation {
            read: 0,
            write: 0,
            value: F::zero_element(),
        };
        // The number of the cycle is what is entered.
        for j in operations.len()..cycles {
            self.enter_cycle(sizes, j, filling);
        }
    }
}

// The answer to operations that are to be made a run.
// Sizes and operations stay two parameters: a struct of both would be made for this call only, to be taken apart in it.
fn check_operations<F: Field>(sizes: Sizes, operations: &[Operation<F>]) -> Result<(), Refusal>
    ensures { result ≡ operations_answer sizes operations.now }
{
    check_addresses(operations, sizes.cells())?;
    if operations.len() > sizes.cycles() {
        return Err(Refusal::WrongCount);
    }
    Ok(())
}

// Makes the run of the operations in the lists.
pub fn make_run<F: Field>(
    sizes: Sizes,
    operations: &[Operation<F>],
    lists: &mut RunLists<'_, F>,
) -> Result<(), Refusal>
    ensures same_lists { SameLists lists.old lists.new }
    ensures answer { result ≡ run_answer sizes operations.now lists.old }
    ensures reads { lists.new.reads.now ≡ if_made result (placed (cycle_count sizes) (read_at F.Field.field operations.now) lists.old.reads.now) lists.old.reads.now }
    ensures writes { lists.new.writes.now ≡ if_made result (placed (cycle_count sizes) (write_at F.Field.field operations.now) lists.old.writes.now) lists.old.writes.now }
    ensures rv { lists.new.rv.now ≡ if_made result (placed (cycle_count sizes) (rv_at F.Field.field operations.now) lists.old.rv.now) lists.old.rv.now }
    ensures wv { lists.new.wv.now ≡ if_made result (placed (cycle_count sizes) (value_at F.Field.field operations.now) lists.old.wv.now) lists.old.wv.now }
    ensures inc { lists.new.inc.now ≡ if_made result (placed (cell_count sizes * cycle_count sizes) (inc_at F.Field.field sizes operations.now) lists.old.inc.now) lists.old.inc.now }
    ensures run { result ≡ Ok tt → RunOf F.Field.field sizes operations.now (take (cycle_count sizes) lists.new.reads.now) (take (cycle_count sizes) lists.new.writes.now) (take (cycle_count sizes) lists.new.rv.now) (take (cycle_count sizes) lists.new.wv.now) (take (cell_count sizes * cycle_count sizes) lists.new.inc.now) }
{
    if !lists.has_room(sizes) {
        return Err(Refusal::TooShort);
    }
    check_operations(sizes, operations)?;
    lists.fill(sizes, operations);
    Ok(())
}
