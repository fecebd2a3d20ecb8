// Where each part of the state stands in the records buffer, as specs/Layout.antt has it.
use memory::config::Config;
use records::payload::Payload;

pub const EDIT_SIZE: usize = 20;

pub const DEPENDENCY_AT: usize = Payload::NAME_MAX + 24;

pub const EDIT_COUNT_AT: usize = DEPENDENCY_AT + Payload::ID_MAX;

pub const EDITS_AT: usize = EDIT_COUNT_AT + 4;

pub const PAYLOAD_SIZE: usize = EDITS_AT + EDIT_SIZE * Payload::RECORDS_MAX;

pub const COUNT_AT: usize = 32;

pub const JOB_AT: usize = COUNT_AT + 20;

pub const HELD_AT: usize = JOB_AT + 16;

pub const STACK_AT: usize = HELD_AT + Config::CPUS_MAX;

pub const PAYLOADS_AT: usize = STACK_AT + 4 * Config::SLOTS;

pub const RECORDS_SIZE: usize = PAYLOADS_AT + PAYLOAD_SIZE * Config::SLOTS;
