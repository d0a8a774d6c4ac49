// Definitions and theorems alone: a machine that is run until it stops, for the definitions of loops.
#![tactic(auto)]
