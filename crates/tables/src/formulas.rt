// The formulas of the protocol, over slices of elements of any field.
ghost use Rattle.std.specs.Prelude.{◌≡◌, ◌%◌, ◌^◌, ◌<◌, ◌≤◌, ◌++◌, cond, length, Ok, Err, ◌==◌, nat_lt};
ghost use Rattle.fields.specs.Fields.{elements};
ghost use Rattle.fields.specs.declared.refusal.Refusal.TheVariants.{OutsideTable};
ghost use Rattle.tables.specs.Limits.{most_variables};
ghost use Rattle.tables.specs.Formulas.{eq, eq_pair, lt, between, extension};
ghost use Rattle.tables.specs.Sums.{bit, corner, extension_sum};
ghost use Rattle.tables.specs.Tables.{entry, folded_pairs, on_points, on_table, variables_in};

use crate::size::MOST_VARIABLES;
use fields::field::Field;
use fields::refusal::Refusal;

// eq of one pair.
fn eq_of<F: Field>(x: F, y: F) -> F
    ensures { result ≡ eq_pair F.Field.field (elements F.Field.field) x y }
{
    let one = F::one_element();
    x.times(y).plus(one.minus(x).times(one.minus(y)))
}

// A fold over the pairs of two points of one length, from the last pair to the first.
fn fold_pairs<F: Field, G: Fn(F, F, F) -> F>(
    x: &[F],
    y: &[F],
    start: F,
    step: G,
) -> Result<F, Refusal>
    requires { G.IsAlwaysCallable step }
    ensures { (h : F → F → F → F) → ((z a b r : F) → G.post step z a b r → r ≡ h z a b) → result ≡ on_points F.Field.field x.now y.now (folded_pairs h start x.now y.now) }
{
    if x.len() != y.len() {
        return Err(Refusal::OutsideTable);
    }
    let pairs = x.iter().rev().zip(y.iter().rev());
    Ok(pairs.fold(start, |so_far, (a, b)| step(so_far, *a, *b)))
}

// eq of two points.
pub fn eq_at<F: Field>(x: &[F], y: &[F]) -> Result<F, Refusal>
    ensures { result ≡ on_points F.Field.field x.now y.now (eq F.Field.field (elements F.Field.field) x.now y.now) }
{
    fold_pairs(x, y, F::one_element(), |product, a, b| {
        eq_of(a, b).times(product)
    })
}

// LT of two points.
pub fn lt_at<F: Field>(x: &[F], y: &[F]) -> Result<F, Refusal>
    ensures { result ≡ on_points F.Field.field x.now y.now (lt F.Field.field (elements F.Field.field) x.now y.now) }
{
    let one = F::one_element();
    fold_pairs(x, y, F::zero_element(), |less, a, b| {
        one.minus(a).times(b).plus(eq_of(a, b).times(less))
    })
}

// The value at `x` of the line that is `low` at zero and `high` at one.
fn line_at<F: Field>(x: F, low: F, high: F) -> F
    ensures { result ≡ between F.Field.field (elements F.Field.field) x low high }
{
    low.plus(x.times(high.minus(low)))
}

// The number of variables of a list of so many entries: the largest, up to the limit, that it is long enough for.
pub(crate) fn variables_of(count: usize) -> usize
    ensures value { result ≡ variables_in count }
    ensures bound { result ≤ most_variables }
    ensures enough { 0 < count → 2 ^ result ≤ count }
{
    if count == 0 {
        return 0;
    }
    MOST_VARIABLES.min(count.ilog2() as usize)
}

// Refuses a point in two parts that has not `n` elements.
pub(crate) fn check_fits<F: Field>(head: &[F], tail: &[F], n: usize) -> Result<(), Refusal>
    ensures { result ≡ cond (length (head.now ++ tail.now) == n) (Ok tt) (Err OutsideTable) }
{
    if head.len().checked_add(tail.len()) == Some(n) {
        Ok(())
    } else {
        Err(Refusal::OutsideTable)
    }
}

// Refuses an index that a table of `n` variables has not.
pub(crate) fn check_index(index: usize, n: usize) -> Result<(), Refusal>
    ensures { n ≤ most_variables → result ≡ cond (nat_lt index (2 ^ n)) (Ok tt) (Err OutsideTable) }
{
    if n <= MOST_VARIABLES && index < 1 << n {
        Ok(())
    } else {
        Err(Refusal::OutsideTable)
    }
}

// The extension at one point of a list that fits it, by halves.
// The last two variables are written out: without these arms 2^12 entries take 1.75 times as long.
fn extend<F: Field>(items: &[F], point: &[F]) -> F
    requires { length items.now ≡ 2 ^ length point.now }
    ensures { result ≡ extension F.Field.field (elements F.Field.field) (length point.now) (entry F.Field.field items.now) point.now }
{
    match point {
        [] => items[0],
        [x] => line_at(*x, items[0], items[1]),
        [x, y] => line_at(
            *x,
            line_at(*y, items[0], items[1]),
            line_at(*y, items[2], items[3]),
        ),
        [x, rest @ ..] => {
            let (low, high) = items.split_at(items.len() / 2);
            line_at(*x, extend(low, rest), extend(high, rest))
        }
    }
}

// The extension at a point in two parts of a list that fits it.
// A recursion of its own: one in place of both, which carries two parts all the way down, takes 1.15 times as long.
fn extend_joined<F: Field>(items: &[F], head: &[F], tail: &[F]) -> F
    requires { length items.now ≡ 2 ^ length (head.now ++ tail.now) }
    ensures { result ≡ extension F.Field.field (elements F.Field.field) (length (head.now ++ tail.now)) (entry F.Field.field items.now) (head.now ++ tail.now) }
{
    let [x, rest @ ..] = head else {
        return extend(items, tail);
    };
    if tail.is_empty() {
        return extend(items, head);
    }
    let (low, high) = items.split_at(items.len() / 2);
    let at_zero = extend_joined(low, rest, tail);
    let at_one = extend_joined(high, rest, tail);
    line_at(*x, at_zero, at_one)
}

// eq of the last bit of a number and an element.
// A choice: eq of the bit as an element would cost two multiplications.
fn bit_weight<F: Field>(number: usize, x: F) -> F
    ensures { result ≡ eq_pair F.Field.field (elements F.Field.field) (bit F.Field.field (number % 2)) x }
{
    if number % 2 == 1 {
        x
    } else {
        F::one_element().minus(x)
    }
}

// eq of the bits of a number and a point.
pub(crate) fn weight<F: Field>(number: usize, point: &[F]) -> F
    ensures { result ≡ eq F.Field.field (elements F.Field.field) (corner F.Field.field (length point.now) number) point.now }
{
    let mut product = F::one_element();
    // The bits that are left go along: a shift by the place of each would ask for a short point.
    let mut rest = number;
    for x in point.iter().rev() {
        product = bit_weight(rest, *x).times(product);
        rest /= 2;
    }
    product
}

// The extension of a list at a point in two parts.
pub fn extension_joined<F: Field>(items: &[F], head: &[F], tail: &[F]) -> Result<F, Refusal>
    ensures value { result ≡ on_table F.Field.field items.now (head.now ++ tail.now) (extension F.Field.field (elements F.Field.field) (length (head.now ++ tail.now)) (entry F.Field.field items.now) (head.now ++ tail.now)) }
    ensures sum { result ≡ on_table F.Field.field items.now (head.now ++ tail.now) (extension_sum F.Field.field (length (head.now ++ tail.now)) (entry F.Field.field items.now) (head.now ++ tail.now)) }
{
    let n = variables_of(items.len());
    if items.len() != 1 << n {
        return Err(Refusal::OutsideLimits);
    }
    check_fits(head, tail, n)?;
    Ok(extend_joined(items, head, tail))
}

// The extension of a list at a point.
pub fn extension_at<F: Field>(items: &[F], point: &[F]) -> Result<F, Refusal>
    ensures value { result ≡ on_table F.Field.field items.now point.now (extension F.Field.field (elements F.Field.field) (length point.now) (entry F.Field.field items.now) point.now) }
    ensures sum { result ≡ on_table F.Field.field items.now point.now (extension_sum F.Field.field (length point.now) (entry F.Field.field items.now) point.now) }
{
    extension_joined(items, &[], point)
}
