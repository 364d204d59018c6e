// The plan of a job: which stages it has, and the draws, rounds and degree bounds of each.
ghost use Rattle.std.specs.Prelude.{◌≡◌, ◌%◌, ◌≤◌, length, if◌then◌else◌, nat_eq};
ghost use Rattle.std.specs.List.{slice_get};
ghost use Rattle.std.specs.Iterator.{YieldsFirst, item_count};
ghost use Rattle.stages.specs.Plan.{memory_stages, read_degree, stages, stages_from, stage_at, draws, rounds, bound_at, challenge_count, closed_form};
ghost use Rattle.stages.specs.Places.{place};
ghost use Rattle.stages.specs.Due.{point_size};

use tables::size::Sizes;

// Shout checks a read-only memory; Twist one with a read and a write in each cycle.
#[derive(Clone, Copy, PartialEq, Eq, Debug)]
pub enum Kind {
    Shout,
    Twist,
}

// The one-hot table of a chunk of the read or the write addresses, by the number of the chunk, from 1.
#[derive(Clone, Copy, PartialEq, Eq, Debug)]
pub enum ChunkTable {
    Ra(usize),
    Wa(usize),
}

#[derive(Clone, Copy, PartialEq, Eq, Debug)]
pub enum Stage {
    // Each entry of the table is zero or one.
    Bits(ChunkTable),
    // The entries of each cycle add up to one.
    Row(ChunkTable),
    // Each read gives what the memory holds at the address.
    Read,
    // Each increment is what the write adds to the cell, and zero elsewhere.
    Write,
    // The end value before is the value of the memory.
    Value,
}

#[derive(Clone, Copy, PartialEq, Eq, Debug)]
pub struct Plan {
    pub kind: Kind,
    pub sizes: Sizes,
}

impl Plan {
    pub fn stage_count(self) -> usize
        ensures { result ≡ length (stages self) }
    {
        let d = self.sizes.chunks();
        match self.kind {
            Kind::Shout => 2 * d + 1,
            Kind::Twist => 4 * d + 4,
        }
    }

    // The stage of a number, from 1.
    pub fn stage_at(self, number: usize) -> Option<Stage>
        ensures { result ≡ stage_at self number }
    {
        let index = number.checked_sub(1)?;
        let chunk_stages = 2 * self.sizes.chunks();
        if index < chunk_stages {
            return Some(chunk_stage(index, ChunkTable::Ra(index / 2 + 1)));
        }
        let index = index - chunk_stages;
        match self.kind {
            Kind::Shout if index == 0 => Some(Stage::Read),
            Kind::Shout => None,
            Kind::Twist if index < chunk_stages => {
                Some(chunk_stage(index, ChunkTable::Wa(index / 2 + 1)))
            }
            Kind::Twist => last_stage(index - chunk_stages),
        }
    }

    // The stages in order.
    pub fn stages(self) -> Stages
        ensures { stages_from result.plan result.next ≡ stages self }
    {
        Stages {
            plan: self,
            next: 1,
        }
    }

    // The coordinates of an address and a cycle.
    pub(crate) fn point_size(self) -> usize
        ensures { result ≡ point_size self }
    {
        self.sizes.address_bits() + self.sizes.cycle_bits()
    }

    // The draws that a stage takes before its rounds.
    pub fn draws(self, stage: Stage) -> usize
        ensures { result ≡ draws self stage }
    {
        let cycle_bits = self.sizes.cycle_bits();
        match stage {
            Stage::Bits(_) => self.sizes.chunk_variables(),
            Stage::Row(_) | Stage::Read => cycle_bits,
            Stage::Write => self.point_size(),
            Stage::Value => 0,
        }
    }

    pub fn rounds(self, stage: Stage) -> usize
        ensures { result ≡ rounds self stage }
    {
        let cycle_bits = self.sizes.cycle_bits();
        match stage {
            Stage::Bits(_) => self.sizes.chunk_variables(),
            Stage::Row(_) => self.sizes.chunk_bits(),
            Stage::Read | Stage::Write => self.point_size(),
            Stage::Value => cycle_bits,
        }
    }

    // The degree bound of a round, from 1.
    pub fn bound_at(self, stage: Stage, round: usize) -> Option<usize>
        ensures { result ≡ bound_at self stage round }
    {
        if round == 0 || round > self.rounds(stage) {
            return None;
        }
        let d = self.sizes.chunks();
        let address_round = round <= self.sizes.address_bits();
        match stage {
            Stage::Bits(_) => Some(3),
            Stage::Row(_) => Some(1),
            Stage::Read if address_round => Some(2),
            Stage::Read => Some(self.read_degree()),
            Stage::Write if address_round => Some(3),
            Stage::Write => Some(d + 2),
            Stage::Value => Some(2),
        }
    }

    // The degree of the read summand in a cycle variable.
    fn read_degree(self) -> usize
        ensures { result ≡ read_degree self.kind self.sizes.d }
    {
        match self.kind {
            Kind::Shout => self.sizes.chunks() + 1,
            Kind::Twist => self.sizes.chunks() + 2,
        }
    }

    // N, the draws and challenges of all stages.
    pub fn challenge_count(self) -> usize
        ensures sum { result ≡ challenge_count self }
        ensures closed { result ≡ closed_form self self.kind }
    {
        let d = self.sizes.chunks();
        let t = self.sizes.cycle_bits();
        let k = self.sizes.address_bits();
        let chunk = self.sizes.chunk_variables();
        match self.kind {
            Kind::Shout => 3 * d * chunk + k + 2 * t,
            Kind::Twist => 6 * d * chunk + 3 * k + 6 * t,
        }
    }

    // The place of a count of challenges: the first stage whose challenges go past it, from 1, and the
    // round, from 1, or 0 where the next is a draw; (0, 0) where no stage goes past it.
    pub fn place(self, count: usize) -> (usize, usize)
        ensures place { result ≡ place self count }
        ensures past { challenge_count self ≤ count → result ≡ (0, 0) }
    {
        // A walk over stages and rounds, left with the place: a pair, with zeros past the last stage, as the protocol says.
        let mut left = count;
        let mut number = 1;
        'walk: loop {
            let Some(stage) = self.stage_at(number) else {
                break 'walk (0, 0);
            };
            let draws = self.draws(stage);
            if left < draws {
                break 'walk (number, 0);
            }
            left -= draws;
            for round in 0..self.rounds(stage) {
                if left == 0 {
                    break 'walk (number, round + 1);
                }
                left -= 1;
            }
            number += 1;
        }
    }
}

// The stages of a plan from a number on, in order.
#[derive(Debug, Drop)]
pub struct Stages {
    plan: Plan,
    next: usize,
}

impl Iterator for Stages {
    type Item = Stage;

    ghost next_gives = { YieldsFirst (λ s. stages_from s.plan s.next) };

    ghost remaining = { item_count (λ s. stages_from s.plan s.next) };

    fn next(&mut self) -> Option<Stage> {
        let stage = self.plan.stage_at(self.next)?;
        self.next += 1;
        Some(stage)
    }
}

// Stages of a chunk table come in pairs, bits first: a plan orders them by the parity of the number.
fn chunk_stage(index: usize, table: ChunkTable) -> Stage
    ensures { result ≡ (if nat_eq (index % 2) 0 then Stage.Bits table else Stage.Row table) }
{
    if index % 2 == 0 {
        Stage::Bits(table)
    } else {
        Stage::Row(table)
    }
}

// The stages of Twist after those of the chunk tables.
const LAST_STAGES: [Stage; 4] = [Stage::Read, Stage::Value, Stage::Write, Stage::Value];

// The one of these with an index, from 0.
fn last_stage(index: usize) -> Option<Stage>
    ensures { result ≡ slice_get memory_stages index }
{
    LAST_STAGES.get(index).copied()
}
