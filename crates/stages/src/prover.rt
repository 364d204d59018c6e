// The proving end: the message of a round and the end value of a stage, as they are due at the challenges so far.
ghost use Rattle.std.specs.Prelude.{◌≡◌, ◌+◌, ◌-◌, ◌*◌, ◌^◌, ◌<◌, ◌≤◌, true, false, ◌++◌, map, length, MatchResult, ◌%◌, ◌∷◌, take, slice_index_or};
ghost use Rattle.fields.specs.Fields.{elements};
ghost use Rattle.tables.specs.Formulas.{eq, lt, extension};
ghost use Rattle.tables.specs.Sizes.{k};
ghost use Rattle.tables.specs.Tables.{entry};
ghost use Rattle.rounds.specs.Accumulators.{coefficients, kept};
ghost use Rattle.rounds.specs.Polynomials.{padded, poly_mul, line as the_line};
ghost use Rattle.stages.specs.Formulas.{cycle_of, held_at};
ghost use Rattle.stages.specs.Models.{kind_of, plan_of, tables_fit, memory, chunks_fit};
ghost use Rattle.stages.specs.Terms.{value_term, line_of, product_term, written_factor, term, RoundOf, corner_term, poly_sum, chunk_at_point, times_chunks, bits_term, row_term};
ghost use Rattle.stages.specs.Plan.{ChunkOf, Planned, draws as draw_count, rounds};
ghost use Rattle.stages.specs.Memory.{chunk_table, chunk_at};
ghost use Rattle.stages.specs.Due.{point_size, asks, end_value_due, message_from, due_message, message_answer, message_output, end_value_answer};
ghost use Rattle.std.specs.Fn.{FnReturnsAt};
ghost use Rattle.tables.specs.Limits.{most_variables};
ghost use Rattle.tables.specs.Sums.{bit, corner};

use crate::increments::value_at;
use crate::memory::{Tables, tables_fit};
use crate::plan::{ChunkTable, Kind, Plan, Stage};
use fields::field::Field;
use fields::refusal::Refusal;
use rounds::polynomial::Polynomial;
use std::marker::{Model, PhantomData};
use tables::formulas::{eq_at, lt_at};
use tables::size::{MOST_VARIABLES, Sizes};
use tables::table::{Committed, Listed};

// A table opened at a point that it has.
fn opened_at<F: Field, C: Committed<F>>(table: &C, head: &[F], tail: &[F]) -> F
    requires { length (head.now ++ tail.now) ≡ (C.Committed.table table.now).variables }
    ensures { result ≡ extension F.Field.field (elements F.Field.field) (C.Committed.table table.now).variables (entry F.Field.field (C.Committed.table table.now).entries) (head.now ++ tail.now) }
{
    table.open(head, tail).unwrap()
}

// eq of points of one length, which eq_at never refuses: a closure that calls this has no unwrap to prove.
fn eq_of_points<F: Field>(x: &[F], y: &[F]) -> F
    requires { length x.now ≡ length y.now }
    ensures { result ≡ eq F.Field.field (elements F.Field.field) x.now y.now }
{
    eq_at(x, y).unwrap()
}

// LT of points of one length, which lt_at never refuses: a function of its own as above.
fn lt_of_points<F: Field>(x: &[F], y: &[F]) -> F
    requires { length x.now ≡ length y.now }
    ensures { result ≡ lt F.Field.field (elements F.Field.field) x.now y.now }
{
    lt_at(x, y).unwrap()
}

// Two points that differ in the round's variable alone, which is zero at the low one and one at the high one. Each term
// asks for a length of its own, the number of its stage's rounds, so no size stands here.
#[derive(Drop)]
struct Ends<'a, F> {
    low: &'a [F],
    high: &'a [F],
    ghost same: { length low.now ≡ length high.now },
}

// The values of a factor at both ends.
#[derive(Clone, Copy)]
struct Line<F> {
    low: F,
    high: F,
}

impl<'a, F: Field> Ends<'a, F> {
    // The line of a factor: a closure's results are known at the ends alone, where it ran.
    fn line<G: Fn(&[F]) -> F>(&self, factor: G) -> Line<F>
        requires low { G.pre factor self.now.low }
        requires high { G.pre factor self.now.high }
        ensures low { FnReturnsAt G.Fn factor self.now.low.now result.low }
        ensures high { FnReturnsAt G.Fn factor self.now.high.now result.high }
    {
        Line {
            low: factor(self.low),
            high: factor(self.high),
        }
    }
}

impl<F: Field> Line<F> {
    // The line as a polynomial.
    fn alone(self) -> Polynomial<F>
        ensures { coefficients result ≡ kept F.Field.field (the_line F.Field.field self.low self.high) }
    {
        Polynomial::line(self.low, self.high)
    }

    // A polynomial times the line.
    fn times(self, polynomial: Polynomial<F>) -> Polynomial<F>
        ensures { coefficients result ≡ kept F.Field.field (poly_mul F.Field.field (coefficients polynomial) (the_line F.Field.field self.low self.high)) }
    {
        polynomial.times_line(self.low, self.high)
    }
}

// A point, in an array with room for the most coordinates: a library call allocates nothing.
#[derive(Drop)]
struct Point<F> {
    coordinates: [F; MOST_VARIABLES],
    size: usize,
    ghost within: { size ≤ most_variables },
}

// The last bit of a number as an element.
fn last_bit<F: Field>(number: usize) -> F
    ensures { result ≡ bit F.Field.field (number % 2) }
{
    if number % 2 == 1 {
        F::one_element()
    } else {
        F::zero_element()
    }
}

// Coordinate `i` of the point that has the challenges `r`, then `x`, then the bits of `index`.
fn coordinate<F: Field>(r: &[F], x: F, left: usize, index: usize, i: usize) -> F
    requires room { left ≤ most_variables }
    requires within { i < length r.now + 1 + left }
    ensures { result ≡ slice_index_or (r.now ++ (x ∷ corner F.Field.field left index)) i F.Field.field.zero }
{
    if i < r.len() {
        r[i]
    } else if i == r.len() {
        x
    } else {
        last_bit(index >> (left - (i - r.len())))
    }
}

impl<F: Field> Point<F> {
    // The point that has the challenges `r`, then `x`, then the bits of `index`.
    fn new(r: &[F], x: F, left: usize, index: usize) -> Point<F>
        requires { length r.now + 1 + left ≤ most_variables }
        ensures { take result.size result.coordinates ≡ r.now ++ (x ∷ corner F.Field.field left index) }
    {
        // A walk: array::from_fn promises each place only along a chain of calls, and the walk's invariant is shorter.
        // Over the places of the point alone: all of the array would take 1.6 times as long for a round of a few variables.
        let size = r.len() + 1 + left;
        let mut coordinates = [x; MOST_VARIABLES];
        for (i, place) in coordinates[..size].iter_mut().enumerate() {
            *place = coordinate(r, x, left, index, i);
        }
        Point { coordinates, size }
    }

    fn as_slice(&self) -> &[F]
        ensures { result.now ≡ take self.now.size self.now.coordinates }
    {
        &self.coordinates[..self.size]
    }
}

// The table of a chunk.
#[derive(Drop)]
struct Chunk<'a, F: Field, A: Committed<F>> {
    sizes: Sizes,
    table: &'a A,
    field: PhantomData<F>,
    ghost variables: { (A.Committed.table table.now).variables ≡ sizes.c + sizes.t },
}

// The tables of all chunks.
#[derive(Drop)]
struct ChunkTables<'a, F: Field, A: Committed<F>> {
    sizes: Sizes,
    tables: &'a [A],
    field: PhantomData<F>,
    ghost fit: { chunks_fit sizes (map A.Committed.table tables.now) ≡ true },
}

impl<'a, F: Field, A: Committed<F>> Chunk<'a, F, A> {
    // The value at the point's cycle and at chunk `i` of its address; the first chunk has the number 0.
    fn value_at(&self, i: usize, point: &[F]) -> F
        requires within { i < self.now.sizes.d }
        requires point { length point.now ≡ k self.now.sizes + self.now.sizes.t }
        ensures { result ≡ chunk_at_point F.Field.field self.now.sizes (A.Committed.table self.now.table.now).entries i point.now }
    {
        let c = self.sizes.chunk_bits();
        let k = self.sizes.address_bits();
        let (address, cycle) = point.split_at(k);
        let from = i * c;
        opened_at(self.table, &address[from..from + c], cycle)
    }

    // The line of the table at the cycle and at chunk `i` of the address.
    fn line(&self, i: usize, ends: &Ends<F>) -> Line<F>
        requires within { i < self.now.sizes.d }
        requires ends { length ends.now.low.now ≡ k self.now.sizes + self.now.sizes.t }
        ensures { the_line F.Field.field result.low result.high ≡ line_of F.Field.field ends.now.low.now ends.now.high.now (chunk_at_point F.Field.field self.now.sizes (A.Committed.table self.now.table.now).entries i) }
    {
        ends.line(|point| self.value_at(i, point))
    }

    // eq times the square of an entry less the entry.
    // The draws and the ends have lengths of their own in each stage's term, so no type for both could say them.
    fn bits_term(&self, draws: &[F], ends: &Ends<F>) -> Polynomial<F>
        requires draws { length draws.now ≡ self.now.sizes.c + self.now.sizes.t }
        requires ends { length ends.now.low.now ≡ self.now.sizes.c + self.now.sizes.t }
        ensures { coefficients result ≡ kept F.Field.field (bits_term F.Field.field self.now.sizes ends.now.low.now ends.now.high.now (A.Committed.table self.now.table.now).entries draws.now) }
    {
        let entry = ends.line(|point| opened_at(self.table, point, &[]));
        let weight = ends.line(|point| eq_of_points(draws, point)).alone();
        let weighted = entry.times(weight);
        entry.times(weighted).minus(weighted)
    }

    // The entry at the draws' cycle.
    fn row_term(&self, draws: &[F], ends: &Ends<F>) -> Polynomial<F>
        requires draws { length draws.now ≡ self.now.sizes.t }
        requires ends { length ends.now.low.now ≡ self.now.sizes.c }
        ensures { coefficients result ≡ kept F.Field.field (row_term F.Field.field self.now.sizes ends.now.low.now ends.now.high.now (A.Committed.table self.now.table.now).entries draws.now) }
    {
        ends.line(|point| opened_at(self.table, point, draws))
            .alone()
    }
}

impl<'a, F: Field, A: Committed<F>> ChunkTables<'a, F, A> {
    fn new(sizes: Sizes, tables: &'a [A]) -> ChunkTables<'a, F, A>
        requires { chunks_fit sizes (map A.Committed.table tables.now) ≡ true }
        ensures sizes { result.sizes ≡ sizes }
        ensures tables { result.tables.now ≡ tables.now }
    {
        ChunkTables {
            sizes,
            tables,
            field: PhantomData,
        }
    }

    // The table of a number, from 1.
    fn numbered(&self, number: usize) -> Chunk<'a, F, A>
        requires { (1 ≤ number) × (number ≤ self.now.sizes.d) }
        ensures sizes { result.sizes ≡ self.now.sizes }
        ensures entries { chunk_at (map (λ m. (A.Committed.table m).entries) self.now.tables.now) number ≡ (A.Committed.table result.table.now).entries }
    {
        Chunk {
            sizes: self.sizes,
            table: &self.tables[number - 1],
            field: PhantomData,
        }
    }

    // A polynomial times the lines of all tables.
    fn times(&self, ends: &Ends<F>, first: Polynomial<F>) -> Polynomial<F>
        requires { length ends.now.low.now ≡ k self.now.sizes + self.now.sizes.t }
        ensures { coefficients result ≡ kept F.Field.field (times_chunks F.Field.field self.now.sizes ends.now.low.now ends.now.high.now (map (λ m. (A.Committed.table m).entries) self.now.tables.now) self.now.sizes.d (coefficients first)) }
    {
        let (sizes, tables) = (self.sizes, self.tables);
        let mut product = first;
        for (i, table) in tables.iter().enumerate() {
            let chunk = Chunk {
                sizes,
                table,
                field: PhantomData,
            };
            product = chunk.line(i, ends).times(product);
        }
        product
    }
}

// What the proving end has: tables that fit the sizes of the plan, and the challenges so far.
#[derive(Drop)]
struct Prover<'a, F: Field, A: Committed<F>, M: Listed<F>, V: Committed<F>> {
    plan: Plan,
    tables: &'a Tables<'a, A, M, V>,
    challenges: &'a [F],
}

impl<'a, F: Field, A: Committed<F>, M: Listed<F>, V: Committed<F>> Model
    for Prover<'a, F, A, M, V> {
    ghost use Rattle.std.specs.Prelude.{◌≡◌, true};
    ghost use Rattle.stages.specs.Proving.{Proving};

    ghost Value = { Proving F };

    ghost use Rattle.stages.specs.Models.{kind_of, tables_fit, memory};

    ghost view = { λ p. record { plan = p.plan; memory = memory A.Committed.table M.Committed.table V.Committed.table p.tables.now; challenges = p.challenges.now } };

    ghost invariant = { λ p. (p.plan.kind ≡ kind_of p.tables.now) × (tables_fit A.Committed.table M.Committed.table V.Committed.table p.plan.sizes p.tables.now ≡ true) };
}

impl<'a, F: Field, A: Committed<F>, M: Listed<F>, V: Committed<F>> Prover<'a, F, A, M, V> {
    // Refused where the tables do not fit.
    fn new(
        sizes: Sizes,
        tables: &'a Tables<'a, A, M, V>,
        challenges: &'a [F],
    ) -> Result<Prover<'a, F, A, M, V>, Refusal>
        ensures { MatchResult result (λ made. (tables_fit A.Committed.table M.Committed.table V.Committed.table sizes tables.now ≡ true) × (made.plan ≡ plan_of sizes tables.now) × (made.memory ≡ memory A.Committed.table M.Committed.table V.Committed.table tables.now) × (made.challenges ≡ challenges.now)) (λ refusal. (tables_fit A.Committed.table M.Committed.table V.Committed.table sizes tables.now ≡ false) × (refusal ≡ Refusal.TablesDoNotFit)) }
    {
        if !tables_fit(sizes, tables) {
            return Err(Refusal::TablesDoNotFit);
        }
        Ok(Prover {
            plan: tables.plan(sizes),
            tables,
            challenges,
        })
    }

    // What the memory holds at a point of an address and a cycle. A point is a slice, of the challenges or of an end, whose
    // length each taker asks for: a type that knew it would wrap every slice anew.
    fn held_at(&self, point: &[F]) -> F
        requires { length point.now ≡ point_size self.now.plan }
        ensures { result ≡ held_at F.Field.field self.now.plan self.now.memory (elements F.Field.field) point.now }
    {
        let k = self.plan.sizes.address_bits();
        let (address, cycle) = point.split_at(k);
        match self.tables {
            Tables::Shout { val, .. } => opened_at(*val, address, &[]),
            Tables::Twist { inc, .. } => value_at(self.plan.sizes, *inc, address, cycle).unwrap(),
        }
    }

    // What is written in the cycle of a point, less what the memory holds at the point.
    fn written_at(&self, wv: &V, point: &[F]) -> F
        requires table { (V.Committed.table wv.now).variables ≡ self.now.plan.sizes.t }
        requires entries { (V.Committed.table wv.now).entries ≡ self.now.memory.wv }
        requires point { length point.now ≡ point_size self.now.plan }
        ensures { result ≡ written_factor F.Field.field self.now.plan self.now.memory point.now }
    {
        let k = self.plan.sizes.address_bits();
        opened_at(wv, &point[k..], &[]).minus(self.held_at(point))
    }

    // The term of a read: eq of the cycles, the chunk tables, and what the memory holds.
    fn read_term(&self, draws: &[F], ends: &Ends<F>) -> Polynomial<F>
        requires draws { length draws.now ≡ self.now.plan.sizes.t }
        requires ends { length ends.now.low.now ≡ point_size self.now.plan }
        ensures { coefficients result ≡ kept F.Field.field (product_term F.Field.field self.now.plan.sizes ends.now.low.now ends.now.high.now self.now.memory.ra (line_of F.Field.field ends.now.low.now ends.now.high.now (λ point. eq F.Field.field (elements F.Field.field) draws.now (cycle_of F.Field.field self.now.plan.sizes (elements F.Field.field) point))) (line_of F.Field.field ends.now.low.now ends.now.high.now (held_at F.Field.field self.now.plan self.now.memory (elements F.Field.field)))) }
    {
        let k = self.plan.sizes.address_bits();
        let weight = ends.line(|point| eq_of_points(draws, &point[k..])).alone();
        let product = self.ra().times(ends, weight);
        ends.line(|point| self.held_at(point)).times(product)
    }

    // The term of a write: eq, the chunk tables, and what is written less what the memory holds.
    fn write_term(
        &self,
        wa: &ChunkTables<F, A>,
        wv: &V,
        draws: &[F],
        ends: &Ends<F>,
    ) -> Polynomial<F>
        requires sizes { wa.now.sizes ≡ self.now.plan.sizes }
        requires table { (V.Committed.table wv.now).variables ≡ self.now.plan.sizes.t }
        requires entries { (V.Committed.table wv.now).entries ≡ self.now.memory.wv }
        requires draws { length draws.now ≡ point_size self.now.plan }
        requires ends { length ends.now.low.now ≡ point_size self.now.plan }
        ensures { coefficients result ≡ kept F.Field.field (product_term F.Field.field self.now.plan.sizes ends.now.low.now ends.now.high.now (map (λ m. (A.Committed.table m).entries) wa.now.tables.now) (line_of F.Field.field ends.now.low.now ends.now.high.now (eq F.Field.field (elements F.Field.field) draws.now)) (line_of F.Field.field ends.now.low.now ends.now.high.now (written_factor F.Field.field self.now.plan self.now.memory))) }
    {
        let weight = ends.line(|point| eq_of_points(draws, point)).alone();
        let product = wa.times(ends, weight);
        ends.line(|point| self.written_at(wv, point)).times(product)
    }

    // The increment at an address, times LT.
    fn value_term(&self, inc: &M, before: &[F], ends: &Ends<F>) -> Polynomial<F>
        requires inc { (M.Committed.table inc.now).variables ≡ point_size self.now.plan }
        requires before { length before.now ≡ point_size self.now.plan }
        requires ends { length ends.now.low.now ≡ self.now.plan.sizes.t }
        ensures { coefficients result ≡ kept F.Field.field (value_term F.Field.field self.now.plan.sizes ends.now.low.now ends.now.high.now (M.Committed.table inc.now).entries before.now) }
    {
        let k = self.plan.sizes.address_bits();
        let (address, cycle) = before.split_at(k);
        let added = ends.line(|point| opened_at(inc, address, point)).alone();
        ends.line(|point| lt_of_points(point, cycle)).times(added)
    }

    // The chunk tables of the reads.
    fn ra(&self) -> ChunkTables<'a, F, A>
        ensures sizes { result.sizes ≡ self.now.plan.sizes }
        ensures entries { self.now.memory.ra ≡ map (λ m. (A.Committed.table m).entries) result.tables.now }
    {
        match self.tables {
            Tables::Shout { ra, .. } | Tables::Twist { ra, .. } => {
                ChunkTables::new(self.plan.sizes, *ra)
            }
        }
    }

    // A chunk table of the job.
    fn chunk_table(&self, which: ChunkTable) -> Chunk<'a, F, A>
        requires { ChunkOf self.now.plan.kind self.now.plan.sizes.d which }
        ensures sizes { result.sizes ≡ self.now.plan.sizes }
        ensures entries { chunk_table self.now.memory which ≡ (A.Committed.table result.table.now).entries }
    {
        let sizes = self.plan.sizes;
        match (which, self.tables) {
            (ChunkTable::Ra(number), _) => self.ra().numbered(number),
            (ChunkTable::Wa(number), Tables::Twist { wa, .. }) => {
                ChunkTables::new(sizes, *wa).numbered(number)
            }
            // A plan of Shout has no such table.
            (ChunkTable::Wa(_), Tables::Shout { .. }) => unreachable(),
        }
    }

    // The term of a stage of the plan, by the ends of the round's variable: a match, since each kind of stage takes
    // other parts of the tables.
    fn term(&self, stage: Stage, draws: &[F], before: &[F], ends: &Ends<F>) -> Polynomial<F>
        requires planned { Planned self.now.plan.kind self.now.plan.sizes.d stage }
        requires draws { length draws.now ≡ draw_count self.now.plan stage }
        requires before { stage ≡ Stage.Value → length before.now ≡ point_size self.now.plan }
        requires ends { length ends.now.low.now ≡ rounds self.now.plan stage }
        ensures { coefficients result ≡ kept F.Field.field (term F.Field.field self.now.plan self.now.memory ends.now.low.now ends.now.high.now stage draws.now before.now) }
    {
        match (stage, self.tables) {
            (Stage::Bits(which), _) => self.chunk_table(which).bits_term(draws, ends),
            (Stage::Row(which), _) => self.chunk_table(which).row_term(draws, ends),
            (Stage::Read, _) => self.read_term(draws, ends),
            (Stage::Write, Tables::Twist { wa, wv, .. }) => {
                let wa = ChunkTables::new(self.plan.sizes, *wa);
                self.write_term(&wa, *wv, draws, ends)
            }
            (Stage::Value, Tables::Twist { inc, .. }) => self.value_term(*inc, before, ends),
            // A plan of Shout has no such stage.
            (Stage::Write | Stage::Value, Tables::Shout { .. }) => unreachable(),
        }
    }

    // The polynomial of the round after the challenges so far, of a stage whose first challenge has the number `start`.
    fn round_polynomial(&self, stage: Stage, start: usize) -> Polynomial<F>
        requires planned { Planned self.now.plan.kind self.now.plan.sizes.d stage }
        requires before { stage ≡ Stage.Value → point_size self.now.plan ≤ start }
        requires drawn { start + draw_count self.now.plan stage ≤ length self.now.challenges }
        requires left { length self.now.challenges < start + draw_count self.now.plan stage + rounds self.now.plan stage }
        ensures { padded F.Field.field (length (message_from F.Field.field self.now.plan self.now.memory self.now.challenges start stage)) (coefficients result) ≡ message_from F.Field.field self.now.plan self.now.memory self.now.challenges start stage }
    {
        let own = start + self.plan.draws(stage);
        let from = start.saturating_sub(self.plan.point_size());
        let r = &self.challenges[own..];
        let round = Round {
            prover: self,
            stage,
            draws: &self.challenges[start..own],
            before: &self.challenges[from..start],
            r,
            left: self.plan.rounds(stage) - 1 - r.len(),
        };
        round.sum()
    }
}

// A round of a stage of the plan: the stage's draws, the point before a value stage, the challenges of the rounds
// before, and the number of variables to come.
#[derive(Drop)]
struct Round<'a, F: Field, A: Committed<F>, M: Listed<F>, V: Committed<F>> {
    prover: &'a Prover<'a, F, A, M, V>,
    stage: Stage,
    draws: &'a [F],
    before: &'a [F],
    r: &'a [F],
    left: usize,
}

impl<'a, F: Field, A: Committed<F>, M: Listed<F>, V: Committed<F>> Round<'a, F, A, M, V> {
    // The term at corner number `index` of the variables to come. RoundOf stands here and at `sum`, and in no third place.
    fn corner_term(&self, index: usize) -> Polynomial<F>
        requires { RoundOf self.now.prover.now.plan self.now.stage self.now.draws.now self.now.before.now self.now.r.now self.now.left }
        ensures { coefficients result ≡ kept F.Field.field (corner_term F.Field.field self.now.prover.now.plan self.now.prover.now.memory self.now.stage self.now.draws.now self.now.before.now self.now.r.now self.now.left index) }
    {
        let low = Point::new(self.r, F::zero_element(), self.left, index);
        let high = Point::new(self.r, F::one_element(), self.left, index);
        let ends = Ends {
            low: low.as_slice(),
            high: high.as_slice(),
        };
        self.prover.term(self.stage, self.draws, self.before, &ends)
    }

    // The terms at all corners of the variables to come, added up.
    fn sum(&self) -> Polynomial<F>
        requires { RoundOf self.now.prover.now.plan self.now.stage self.now.draws.now self.now.before.now self.now.r.now self.now.left }
        ensures { coefficients result ≡ kept F.Field.field (poly_sum F.Field.field (2 ^ self.now.left) (corner_term F.Field.field self.now.prover.now.plan self.now.prover.now.memory self.now.stage self.now.draws.now self.now.before.now self.now.r.now self.now.left)) }
    {
        let mut sum = Polynomial::zero();
        // The number of the corner is what its term takes.
        for index in 0..1 << self.left {
            sum = sum.plus(self.corner_term(index));
        }
        sum
    }
}

// Writes the message that is due into the first places of the output. Refused where none is due, else where the
// output has no room for it, else where the tables do not fit; a refused call leaves the output as it was.
// The protocol gives the sizes and the tables apart, and the call has to find out whether they fit.
pub fn make_message<F: Field, A: Committed<F>, M: Listed<F>, V: Committed<F>>(
    sizes: Sizes,
    tables: &Tables<A, M, V>,
    challenges: &[F],
    output: &mut [F],
) -> Result<(), Refusal>
    ensures answer { result ≡ message_answer (tables_fit A.Committed.table M.Committed.table V.Committed.table sizes tables.now) output.old (due_message F.Field.field (plan_of sizes tables.now) (memory A.Committed.table M.Committed.table V.Committed.table tables.now) challenges.now) }
    ensures output { output.new ≡ message_output (tables_fit A.Committed.table M.Committed.table V.Committed.table sizes tables.now) output.old (due_message F.Field.field (plan_of sizes tables.now) (memory A.Committed.table M.Committed.table V.Committed.table tables.now) challenges.now) }
{
    let plan = tables.plan(sizes);
    let (number, round) = plan.place(challenges.len());
    let stage = plan.stage_at(number).ok_or(Refusal::NothingDue)?;
    let bound = plan.bound_at(stage, round).ok_or(Refusal::NothingDue)?;
    if output.len() <= bound {
        return Err(Refusal::TooShort);
    }
    let prover = Prover::new(sizes, tables, challenges)?;
    let start = challenges.len() - (round - 1) - plan.draws(stage);
    prover
        .round_polynomial(stage, start)
        .write(bound + 1, output)
}

// Whether a stage asks for an end value.
fn asks(kind: Kind, stage: Stage) -> bool
    ensures { result ≡ asks kind stage }
{
    matches!((kind, stage), (Kind::Twist, Stage::Read | Stage::Write))
}

// Whether all rounds of a stage that asks for an end value are done at the count.
fn end_value_due(plan: Plan, count: usize) -> bool
    ensures { result ≡ end_value_due plan count }
{
    let mut end = 0;
    for stage in plan.stages() {
        end += plan.draws(stage) + plan.rounds(stage);
        if asks(plan.kind, stage) && end == count {
            return true;
        }
    }
    false
}

// The end value that is due: what the memory holds at the last challenges. Refused where none is due, else where the
// tables do not fit.
pub fn make_end_value<F: Field, A: Committed<F>, M: Listed<F>, V: Committed<F>>(
    sizes: Sizes,
    tables: &Tables<A, M, V>,
    challenges: &[F],
) -> Result<F, Refusal>
    ensures { result ≡ end_value_answer F.Field.field (plan_of sizes tables.now) (memory A.Committed.table M.Committed.table V.Committed.table tables.now) challenges.now (tables_fit A.Committed.table M.Committed.table V.Committed.table sizes tables.now) }
{
    let plan = tables.plan(sizes);
    if !end_value_due(plan, challenges.len()) {
        return Err(Refusal::NothingDue);
    }
    let prover = Prover::new(sizes, tables, challenges)?;
    let from = challenges.len() - plan.point_size();
    Ok(prover.held_at(&challenges[from..]))
}
