// What the two ends of the protocol ask of a table.
ghost use Rattle.std.specs.Prelude.{◌≡◌, ◌++◌};
ghost use Rattle.tables.specs.Tables.{Table, opened, entry_answer};

use fields::field::Field;
use fields::refusal::Refusal;

// A table that stands for a commitment: it can be opened at points.
pub trait Committed<F: Field> {
    // What the table means.
    ghost table: { Self → Table F };

    // The number of variables.
    fn vars(&self) -> usize
        ensures { result ≡ (table self.now).variables };

    // The extension at a point in two parts.
    // Two slices, as a caller has them: a struct of both would be made for each opening only to be taken apart.
    fn open(&self, head: &[F], tail: &[F]) -> Result<F, Refusal>
        ensures { result ≡ opened F.Field.field (table self.now) (head.now ++ tail.now) };
}

// A committed table whose entries can be read.
pub trait Listed<F: Field>: Committed<F> {
    fn entry(&self, index: usize) -> Result<F, Refusal>
        ensures { result ≡ entry_answer F.Field.field (Self.Committed.table self.now) index };
}
