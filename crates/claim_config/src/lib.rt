#![tactic(auto)]

// A configuration's list, its first bad line, plain and written texts, as definitions and theorems on them: there is no code here.
