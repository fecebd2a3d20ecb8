// What holds of the reference model after any calls: laws alone.
#![tactic(auto)]
