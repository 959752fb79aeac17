// General laws of lists and numbers: nothing here knows of sudo. The laws stand in proofs/, the notions
// that other crates' definitions share in specs/.
#![tactic(auto)]
