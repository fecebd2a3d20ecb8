// The first pair of records whose edits touch a common byte, told by the later record.
ghost use Rattle.std.specs.Prelude.{◌≡◌, ◌≤◌};
ghost use Rattle.records.specs.Limits.{records_max};
ghost use Rattle.functions.specs.Pairs.{touch, pair_rules};

use records::payload::{Edit, Payload};
use records::refusal::{self, Place, Reason, Refusal};

fn touching(a: Edit, b: Edit) -> bool
    ensures { result ≡ touch a b }
{
    let a_end = (a.offset as u64) + (a.length as u64);
    let b_end = (b.offset as u64) + (b.length as u64);
    if b_end <= (a.offset as u64) {
        return false;
    }
    if a_end <= (b.offset as u64) {
        return false;
    }
    true
}

// Two nested loops, left from the inner one by a label with the later record's number.
pub(crate) fn check_pairs(edits: [Edit; Payload::RECORDS_MAX], count: usize) -> Result<(), Refusal>
    requires { count ≤ records_max }
    ensures { result ≡ pair_rules edits count }
{
    let touched = 'pairs: {
        for (j, later) in edits[..count].iter().enumerate() {
            for earlier in &edits[..j] {
                if touching(*earlier, *later) {
                    break 'pairs Some(j);
                }
            }
        }
        None
    };
    match touched {
        Some(j) => refusal::refused(Reason::Invalid, Place::Record(j as u16)),
        None => Ok(()),
    }
}
