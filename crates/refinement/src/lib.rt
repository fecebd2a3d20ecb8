// How the loader's state and memory stand for the reference model, call by call: laws alone.
#![tactic(auto)]
