// The reference model of the loader: document 01's ledger. It is all definitions: specs/ has it.
#![tactic(auto)]
