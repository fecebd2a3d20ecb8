// Carries document 01's table of known answers: K1 to K10, and the sizes by the limits, hold of the definitions that the contracts cite.
#![tactic(auto)]

ghost use Rattle.known.specs.Table.{KnownTable};

pub fn known_answers()
    ensures { KnownTable }
{}
