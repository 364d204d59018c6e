// The text that answers a job's line.
ghost use Rattle.std.specs.Prelude.{◌≡◌, Some, IfOk, string_bytes};
ghost use Rattle.stages.specs.Plan.{bounds};
ghost use Rattle.texts.specs.Pages.{table_name, comma_list, stage_line, plan_text, refusal_text, Answers};

use crate::job::read_job;
use fields::refusal::Refusal;
use stages::plan::{Plan, Stage};
use std::alloc::{AllocError, Global};
use std::fmt;

// The chunk table of a stage, or - if it has none.
#[derive(Clone, Copy)]
struct TableName(Stage);

impl fmt::Display for TableName {
    ghost output = { λ name. Some (table_name name.0) };

    fn fmt<W: fmt::Write>(&self, f: &mut fmt::Formatter<W>) -> fmt::Result {
        match self.0 {
            Stage::Bits(table) | Stage::Row(table) => write!(f, "{table}"),
            Stage::Read | Stage::Write | Stage::Value => write!(f, "-"),
        }
    }
}

// The degree bounds of a stage, parted by commas, or - if it has no rounds.
#[derive(Clone, Copy)]
struct BoundList {
    plan: Plan,
    stage: Stage,
}

impl fmt::Display for BoundList {
    ghost output = { λ list. Some (comma_list (bounds list.plan list.stage)) };

    fn fmt<W: fmt::Write>(&self, f: &mut fmt::Formatter<W>) -> fmt::Result {
        let BoundList { plan, stage } = *self;
        let Some(first) = plan.bound_at(stage, 1) else {
            return write!(f, "-");
        };
        write!(f, "{first}")?;
        // Rounds by number: an iterator over bounds would serve this one loop.
        for round in 2..=plan.rounds(stage) {
            let bound = plan.bound_at(stage, round).unwrap();
            write!(f, ",{bound}")?;
        }
        Ok(())
    }
}

// The number of a stage, its name, chunk table, draws and bounds, parted by tabs.
#[derive(Clone, Copy)]
struct StageLine {
    plan: Plan,
    number: usize,
    stage: Stage,
}

impl fmt::Display for StageLine {
    ghost output = { λ line. Some (stage_line line.plan line.number line.stage) };

    fn fmt<W: fmt::Write>(&self, f: &mut fmt::Formatter<W>) -> fmt::Result {
        let StageLine {
            plan,
            number,
            stage,
        } = *self;
        let table = TableName(stage);
        let draws = plan.draws(stage);
        let bounds = BoundList { plan, stage };
        write!(f, "{number}\t{stage}\t{table}\t{draws}\t{bounds}\n")
    }
}

// A line for each stage of a plan.
#[derive(Clone, Copy)]
struct PlanText(Plan);

impl fmt::Display for PlanText {
    ghost output = { λ text. Some (plan_text text.0) };

    fn fmt<W: fmt::Write>(&self, f: &mut fmt::Formatter<W>) -> fmt::Result {
        let plan = self.0;
        for (index, stage) in plan.stages().enumerate() {
            let number = index + 1;
            let line = StageLine {
                plan,
                number,
                stage,
            };
            write!(f, "{line}")?;
        }
        Ok(())
    }
}

pub fn plan_text(heap: Global, plan: Plan) -> Result<String, AllocError>
    ensures { IfOk result (λ s. string_bytes s ≡ plan_text plan) }
{
    PlanText(plan).to_string(heap)
}

pub fn refusal_text(heap: Global, refusal: Refusal) -> Result<String, AllocError>
    ensures { IfOk result (λ s. string_bytes s ≡ refusal_text refusal) }
{
    let number = u8::from(refusal);
    format!(in heap; "refused\t{number}\n")
}

// The plan of the job whose line the input begins with, or the refusal.
pub fn answer(heap: Global, input: &[u8]) -> Result<String, AllocError>
    ensures { IfOk result (λ s. Answers input.now (string_bytes s)) }
{
    match read_job(input).and_then(Plan::try_from) {
        Ok(plan) => plan_text(heap, plan),
        Err(refusal) => refusal_text(heap, refusal),
    }
}
