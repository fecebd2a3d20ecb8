// One work step of a job.
use records::payload::Edit;

// The edit of a payload's record: laid, or taken off.
#[derive(Clone, Copy)]
pub struct Step {
    pub lays: bool,
    pub slot: u32,
    pub number: u32,
    pub edit: Edit,
}
