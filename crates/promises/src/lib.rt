// What is promised of the operations, in one place: specs/Promise.antt has a record for each demand and for what else is
// promised, each in a file of its own, and proofs/ the terms, in files of the same names. The one function here does
// nothing: its contract is the promises, all of them, so that the checker asks for each. `tests/asked` sees to it that
// the contract stays. Assumes nothing.
#![tactic(auto)]

ghost use Rattle.promises.specs.Promise.{Promises};

// Every promise is kept.
pub fn kept()
    ensures { Promises }
{}
