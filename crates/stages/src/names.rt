// The names of stages and of chunk tables, as they are written.
ghost use Rattle.std.specs.Prelude.{Some};
ghost use Rattle.stages.specs.Names.{stage_name, chunk_name};

use crate::plan::{ChunkTable, Stage};
use std::fmt;

impl fmt::Display for Stage {
    ghost output = { λ stage. Some (stage_name stage) };

    fn fmt<W: fmt::Write>(&self, f: &mut fmt::Formatter<W>) -> fmt::Result {
        match self {
            Stage::Bits(_) => write!(f, "bits"),
            Stage::Row(_) => write!(f, "row"),
            Stage::Read => write!(f, "read"),
            Stage::Write => write!(f, "write"),
            Stage::Value => write!(f, "value"),
        }
    }
}

impl fmt::Display for ChunkTable {
    ghost output = { λ table. Some (chunk_name table) };

    fn fmt<W: fmt::Write>(&self, f: &mut fmt::Formatter<W>) -> fmt::Result {
        match self {
            ChunkTable::Ra(chunk) => write!(f, "RA{chunk}"),
            ChunkTable::Wa(chunk) => write!(f, "WA{chunk}"),
        }
    }
}
