// Theorems alone: see specs/ for the limits of the sections, on either side.
#![tactic(auto)]
