// Definitions and theorems alone: rows of elements known by their numbers, and runs that are lent whole to have a stretch of them filled.
#![tactic(auto)]
