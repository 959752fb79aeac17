#![tactic(auto)]

// Demand 3 in a host in C, as definitions and theorems on them: there is no code here.
