#![tactic(auto)]

// What a session answers and carries, against its file, as definitions and theorems on them: there is no code here.
