#![tactic(auto)]

// The ten marked examples, as definitions and theorems on them: there is no code here.
