// What the card promises over any list of calls. There is nothing to do for it: the promises are of the rules, and the code
// equals the rules.
#![tactic(auto)]

ghost use Rattle.promises.specs.Promises.{Promises};

// Asks the prover for a term of every promise.
pub fn promised()
    ensures { Promises }
{}
