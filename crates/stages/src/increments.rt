// Val at an address and a cycle, in one pass over the increments.
ghost use Rattle.std.specs.Prelude.{◌≡◌, ◌+◌, ◌^◌, ◌<◌, ◌≤◌, ◌++◌, length};
ghost use Rattle.fields.specs.Fields.{elements};
ghost use Rattle.tables.specs.Formulas.{lt, cube_sum, extension};
ghost use Rattle.tables.specs.Sizes.{k};
ghost use Rattle.tables.specs.Tables.{entry};
ghost use Rattle.stages.specs.Formulas.{val_value};
ghost use Rattle.stages.specs.Messages.{value_answer};

use fields::field::Field;
use fields::refusal::Refusal;
use tables::size::Sizes;
use tables::table::{Committed, Listed};

// Increments of a cell added up: as they are, and each times LT of its cycle and a point.
#[derive(Clone, Copy)]
struct CellSums<F> {
    all: F,
    before: F,
}

// The increment at an index.
fn increment_at<F: Field, M: Listed<F>>(inc: &M, index: usize) -> F
    requires { index < 2 ^ (M.Committed.table inc.now).variables }
    ensures { result ≡ entry F.Field.field (M.Committed.table inc.now).entries index }
{
    inc.entry(index).unwrap()
}

// The sums over the `count` increments from `start` on, by halves of the cycles.
// The count is halved at each turn: increments are read by entry, and are no slice that would carry its length.
fn cell_sums<F: Field, M: Listed<F>>(
    inc: &M,
    start: usize,
    count: usize,
    cycle: &[F],
) -> CellSums<F>
    requires count { count ≡ 2 ^ length cycle.now }
    requires inside { start + count ≤ 2 ^ (M.Committed.table inc.now).variables }
    ensures all { result.all ≡ cube_sum F.Field.field (elements F.Field.field) (length cycle.now) (λ i b. entry F.Field.field (M.Committed.table inc.now).entries (start + i)) }
    ensures before { result.before ≡ cube_sum F.Field.field (elements F.Field.field) (length cycle.now) (λ i b. F.Field.field.mul (entry F.Field.field (M.Committed.table inc.now).entries (start + i)) (lt F.Field.field (elements F.Field.field) b cycle.now)) }
{
    let Some((x, rest)) = cycle.split_first() else {
        return CellSums {
            all: increment_at(inc, start),
            before: F::zero_element(),
        };
    };
    let half = count / 2;
    let low = cell_sums(inc, start, half, rest);
    let high = cell_sums(inc, start + half, half, rest);
    let more = low.all.plus(high.before).minus(low.before);
    CellSums {
        all: low.all.plus(high.all),
        before: low.before.plus(x.times(more)),
    }
}

// Val over the `count` increments from `start` on, by halves of the cells.
// The last line is the value of a line at x, in one line: a call of another crate for it would be no shorter.
fn value_from<F: Field, M: Listed<F>>(
    inc: &M,
    start: usize,
    count: usize,
    address: &[F],
    cycle: &[F],
) -> F
    requires count { count ≡ 2 ^ length (address.now ++ cycle.now) }
    requires inside { start + count ≤ 2 ^ (M.Committed.table inc.now).variables }
    ensures { result ≡ cube_sum F.Field.field (elements F.Field.field) (length cycle.now) (λ i b. F.Field.field.mul (extension F.Field.field (elements F.Field.field) (length (address.now ++ cycle.now)) (λ n. entry F.Field.field (M.Committed.table inc.now).entries (start + n)) (address.now ++ b)) (lt F.Field.field (elements F.Field.field) b cycle.now)) }
{
    let Some((x, rest)) = address.split_first() else {
        return cell_sums(inc, start, count, cycle).before;
    };
    let half = count / 2;
    let low = value_from(inc, start, half, rest, cycle);
    let high = value_from(inc, start + half, half, rest, cycle);
    low.plus(x.times(high.minus(low)))
}

// Val at an address and a cycle that fit the increments. The two stay apart: halves are taken of each, and LT takes the cycle alone.
fn value_of<F: Field, M: Listed<F>>(sizes: Sizes, inc: &M, address: &[F], cycle: &[F]) -> F
    requires fits { (M.Committed.table inc.now).variables ≡ k sizes + sizes.t }
    requires address { length address.now ≡ k sizes }
    requires cycle { length cycle.now ≡ sizes.t }
    ensures { result ≡ val_value F.Field.field sizes (elements F.Field.field) (M.Committed.table inc.now).entries address.now cycle.now }
{
    value_from(inc, 0, sizes.cells() * sizes.cycles(), address, cycle)
}

// Val at an address and a cycle: one pass over the increments.
pub fn value_at<F: Field, M: Listed<F>>(
    sizes: Sizes,
    inc: &M,
    address: &[F],
    cycle: &[F],
) -> Result<F, Refusal>
    ensures { result ≡ value_answer F.Field.field sizes (M.Committed.table inc.now) address.now cycle.now }
{
    let (k, t) = (sizes.address_bits(), sizes.cycle_bits());
    if inc.vars() != k + t {
        return Err(Refusal::TablesDoNotFit);
    }
    if address.len() != k || cycle.len() != t {
        return Err(Refusal::OutsideTable);
    }
    Ok(value_of(sizes, inc, address, cycle))
}
