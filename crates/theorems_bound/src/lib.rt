// Theorems alone: see specs/Bound.antt for what is said, and proofs/Meets.antt for its proof.
#![tactic(auto)]
