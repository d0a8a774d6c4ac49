// Theorems alone: see specs/Grammar.antt for the standard's grammar of a file, specs/Refusals.antt for the order of refusals, and proofs/.
#![tactic(auto)]
