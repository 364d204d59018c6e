// Facts of the messages that are worked out once, as a theorem.
ghost use Rattle.stages.specs.Examples.{StageExamples};

// The worked examples hold of the definitions, those of the fields and the tables with them.
pub fn stage_examples_hold()
    ensures { StageExamples }
{}
