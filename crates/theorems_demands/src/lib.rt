// Theorems alone: see specs/ for what is said of the whole reader.
#![tactic(auto)]
