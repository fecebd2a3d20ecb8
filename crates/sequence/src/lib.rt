// The claim about every sequence of calls, carried by functions without a body, so that the gate lists it among what is proved.
#![tactic(auto)]

ghost use Rattle.sequence.specs.Claim.{EverySequence, StartsAccepted, EveryCallRuns};

// After an accepted start-up, whatever calls are made, every reply is the model's, and so are list and memory.
pub fn every_sequence()
    ensures { EverySequence }
{}

// It speaks of something: start-ups are accepted, and after one every list of calls has a run.
pub fn every_call_runs()
    ensures { StartsAccepted × EveryCallRuns }
{}
