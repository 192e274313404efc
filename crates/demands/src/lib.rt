// No code. The claims that a reader should open first, specs/Claims.antt, over the definitions that the contracts of the
// exported functions cite, and their proofs.
#![tactic(auto)]
