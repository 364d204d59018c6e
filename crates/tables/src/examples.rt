// Facts of the tables that are worked out once, as a theorem.
ghost use Rattle.tables.specs.Examples.{TableExamples};

// The worked examples hold of the definitions, those of the fields with them.
pub fn table_examples_hold()
    ensures { TableExamples }
{}
