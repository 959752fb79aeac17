#![tactic(auto)]

// Demand 3, as definitions and theorems on them: there is no code here.
