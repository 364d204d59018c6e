// What the rounds of a sum-check rest on: each theorem is the contract of a function, and holds for the elements of every field.
ghost use Rattle.rounds.specs.Padding.{PaddingKeeps};
ghost use Rattle.rounds.specs.Readings.{FormulasEvaluate, DegreesAdd};
ghost use Rattle.rounds.specs.Rounds.{RoundVariablesStand, RoundSumsStand, ClaimsPass};
ghost use Rattle.rounds.specs.Errors.{DrawsCatch, DrawsBind};
ghost use Rattle.rounds.specs.Roots.{RootsAreFew, ValuesDetermine};

// A formula read over polynomials and then evaluated is the formula read over elements.
pub fn formulas_evaluate<F>()
    ensures { FormulasEvaluate F }
{}

// What degree the reading of a formula over polynomials has, and where a round's variable, of degree one, stands.
pub fn degrees_add<F>()
    ensures formulas { DegreesAdd F }
    ensures variable { RoundVariablesStand F }
{}

// What is kept of polynomials that are filled up with zeros, or cut.
pub fn padding_keeps<F>()
    ensures { PaddingKeeps F }
{}

// The values of a round polynomial are sums of the summand, and it has the degree of the summand.
pub fn round_sums_stand<F>()
    ensures { RoundSumsStand F }
{}

// A claim that is true after a round was true before, unless a root was taken; a true claim stays true.
pub fn claims_pass<F>()
    ensures { ClaimsPass F }
{}

// Errors that a draw takes to zero were zero, unless a root was taken; bound at all draws they are their extension there.
pub fn draws_catch<F>()
    ensures one { DrawsCatch F }
    ensures all { DrawsBind F }
{}

// A polynomial that is not zero has no more different roots than its degree; so the values of a polynomial determine it.
pub fn roots_are_few<F>()
    ensures few { RootsAreFew F }
    ensures determined { ValuesDetermine F }
{}
