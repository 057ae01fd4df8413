//! A law of rounds.

ghost use Rattle.turn_plan.specs.Turns.{EqualWeightsAreRounds};

/// Where each weight is 1, weighted rounds are rounds in which all guests have the same steps.
pub fn equal_weights_are_rounds()
    ensures { EqualWeightsAreRounds }
{}
