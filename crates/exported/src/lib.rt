// The claim about every sequence of calls over the C boundary, carried by a function without a body, so that the gate lists it among what is proved.
#![tactic(auto)]

ghost use Rattle.exported.specs.Claim.{EveryExportedSequence};

// After an accepted start-up, whatever exported functions are called, every reply is the model's, and so are list and memory.
pub fn every_sequence()
    ensures { EveryExportedSequence }
{}
