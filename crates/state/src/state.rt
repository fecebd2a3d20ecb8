// The state: start-up's numbers, the payloads, the applied ones as a stack, and the job.
ghost use Rattle.std.specs.Prelude.{◌≡◌, Err};
ghost use Rattle.records.specs.Verdict.{refusal};
ghost use Rattle.state.specs.State.{called, no_job, state_with};

use memory::config::Config;
use records::payload::Payload;
use records::refusal::{self, Place, Reason, Refusal};

// The one job: action (0 where there is none), its payload's slot, the CPUs held, the ticks left, the work steps done.
#[derive(Clone, Copy)]
pub struct Job {
    pub action: u32,
    pub slot: u32,
    pub held: [bool; Config::CPUS_MAX],
    pub time: u32,
    pub steps: u32,
}

// `payloads` is in upload order, `stack` in the order of application and by slot.
#[derive(Clone, Copy)]
pub struct State {
    pub config: Config,
    pub version: u32,
    pub count: usize,
    pub payloads: [Payload; Config::SLOTS],
    pub depth: usize,
    pub stack: [u32; Config::SLOTS],
    pub job: Job,
}

// What a call answers, and the state after it.
#[derive(Clone, Copy)]
pub struct Called {
    pub verdict: Result<(), Refusal>,
    pub state: State,
}

impl Job {
    pub const UNLOAD: u32 = 1;

    pub const REVERT: u32 = 2;

    pub const APPLY: u32 = 3;

    pub const REPLACE: u32 = 4;

    // No job.
    pub fn none() -> Self
        ensures { result ≡ no_job }
    {
        Job {
            action: 0,
            slot: 0,
            held: [false; Config::CPUS_MAX],
            time: 0,
            steps: 0,
        }
    }
}

impl State {
    pub const CHECKED: u32 = 1;

    pub const APPLIED: u32 = 2;

    // The state in which nothing is loaded.
    pub fn with_config(config: Config) -> Self
        ensures { result ≡ state_with config }
    {
        let none = Payload::empty();
        let job = Job::none();
        State {
            config,
            version: 0,
            count: 0,
            payloads: [none; Config::SLOTS],
            depth: 0,
            stack: [0u32; Config::SLOTS],
            job,
        }
    }
}

impl Called {
    // A call that is refused, nowhere: the state as it came.
    pub fn refused(state: State, reason: Reason) -> Self
        ensures { result ≡ called (Err (refusal reason Place.Nowhere)) state }
    {
        let verdict = refusal::refused(reason, Place::Nowhere);
        Called { verdict, state }
    }
}
