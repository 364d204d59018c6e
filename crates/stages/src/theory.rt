// What the proving end rests on.
ghost use Rattle.stages.specs.Terms.{TermsAddUp};

// The terms of a round at all corners add up to its message.
pub fn terms_add_up<F>()
    ensures { TermsAddUp F }
{}
