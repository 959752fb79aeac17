#![tactic(auto)]

// The written form of every message, as definitions, and the theorems on it: there is no code here.
