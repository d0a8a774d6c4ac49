// Theorems alone: see specs/Determined.antt for what it means that a contract leaves nothing open.
#![tactic(auto)]
