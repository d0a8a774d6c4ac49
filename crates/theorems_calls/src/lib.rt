// Theorems alone: the demands, said of the very functions that C and the listing call. The statement is in specs/.
#![tactic(auto)]
