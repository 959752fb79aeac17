#![tactic(auto)]

// Written messages read again, as definitions and theorems on them: there is no code here.
