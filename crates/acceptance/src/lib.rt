// When a payload is accepted: definitions and laws, on which the contract of `prepare` stands.
#![tactic(auto)]
