// Document 01's worked cases, and season cards, computed from the rules. There is nothing to do for it.
#![tactic(auto)]

ghost use Rattle.cases.specs.Growing.{GrowsAsSaid};
ghost use Rattle.cases.specs.Session.{SessionAsSaid};
ghost use Rattle.cases.specs.Rolls.{RollsAsSaid};
ghost use Rattle.cases.specs.Seasons.{SeasonsAsSaid};

// Asks the prover for each list.
pub fn computed_cases()
    ensures { GrowsAsSaid × SessionAsSaid × RollsAsSaid × SeasonsAsSaid }
{}
