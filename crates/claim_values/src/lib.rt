#![tactic(auto)]

// The values of timed records and what is stored for them, as definitions and theorems on them: there is no code here.
