// Facts of the fields that are worked out once, as theorems.
ghost use Rattle.std.specs.Prelude.{◌≡◌};
ghost use Rattle.fields.specs.P31.{p31_field};
ghost use Rattle.fields.specs.Examples.{FieldExamples, p31};

// The worked examples hold of the definitions.
#[tactic(auto, using(crate::proofs::Examples::field_examples))]
pub fn field_examples_hold()
    ensures examples { FieldExamples }
    ensures p31_product { p31_field.mul (p31 1 2) (p31 3 4) ≡ p31 2147483642 10 }
{}
