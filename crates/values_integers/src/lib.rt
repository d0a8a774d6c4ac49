// Theorems alone: see specs/Integers.antt for what the integers are, and proofs/Joined.antt for how the code comes to them.
#![tactic(auto)]
