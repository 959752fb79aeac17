#![tactic(auto)]

// What one message may touch, as definitions and theorems on them: there is no code here.
