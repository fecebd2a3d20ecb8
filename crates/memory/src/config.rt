// What start-up is given.
ghost use Rattle.std.specs.Prelude.{◌≡◌, ◌<◌, true};
ghost use Rattle.memory.specs.Config.{text_ok, arena_ok, are_apart, counts_ok, config_ok, no_config, host_for};
ghost use Rattle.memory.specs.Memory.{slot_count};

use machine::host::Host;
use machine::processor::{EDIT_MAX, Processor};
use records::payload::Payload;

// The processor; text and arena by base address, the text's length, the length of the hypervisor's build-id, the number of CPUs.
#[derive(Clone, Copy)]
pub struct Config {
    pub processor: Processor,
    pub text: u64,
    pub text_length: u64,
    pub arena: u64,
    pub id_length: u32,
    pub cpus: u32,
}

fn text_ok(config: Config) -> bool
    ensures { result ≡ text_ok config }
{
    if config.text_length < 1 {
        return false;
    }
    if Host::TEXT_MAX < config.text_length {
        return false;
    }
    config.text_length - 1 <= u64::MAX - config.text
}

fn arena_ok(config: Config) -> bool
    ensures { result ≡ arena_ok config }
{
    if config.arena == 0 {
        return false;
    }
    if config.arena % Config::ARENA_ALIGN != 0 {
        return false;
    }
    Config::ARENA_SIZE as u64 - 1 <= u64::MAX - config.arena
}

// Whether text and arena share no address: by differences, as either may end at 2^64.
fn are_apart(config: Config) -> bool
    ensures { result ≡ are_apart config }
{
    if config.text <= config.arena {
        return config.text_length <= config.arena - config.text;
    }
    Config::ARENA_SIZE as u64 <= config.text - config.arena
}

fn counts_ok(config: Config) -> bool
    ensures { result ≡ counts_ok config }
{
    if (config.id_length as usize) < Payload::ID_MIN {
        return false;
    }
    if Payload::ID_MAX < config.id_length as usize {
        return false;
    }
    if config.cpus < 1 {
        return false;
    }
    config.cpus as usize <= Config::CPUS_MAX
}

impl Config {
    pub const SLOTS: usize = 8;

    pub const ARENA_SIZE: usize = Config::SLOTS * Payload::PLACED_MAX;

    pub const UNDO_SIZE: usize = Config::SLOTS * Payload::RECORDS_MAX * (EDIT_MAX as usize);

    pub const IDS_SIZE: usize = Config::SLOTS * Payload::ID_MAX;

    pub const ARENA_ALIGN: u64 = 4096;

    pub const CPUS_MAX: usize = 64;

    // The configuration of no unit.
    pub fn none() -> Self
        ensures { result ≡ no_config }
    {
        Config {
            processor: Processor::X86_64,
            text: 0,
            text_length: 0,
            arena: 0,
            id_length: 0,
            cpus: 0,
        }
    }

    // Whether start-up accepts these numbers.
    pub fn is_valid(self) -> bool
        ensures { result ≡ config_ok self }
    {
        if !text_ok(self) {
            return false;
        }
        if !arena_ok(self) {
            return false;
        }
        if !are_apart(self) {
            return false;
        }
        counts_ok(self)
    }

    // What a payload in this slot is prepared for.
    pub fn host(self, slot: usize) -> Host
        requires { (config_ok self ≡ true) × (slot < slot_count) }
        ensures { result ≡ host_for self slot }
    {
        let processor = self.processor;
        Host {
            processor,
            text: self.text,
            text_length: self.text_length,
            slot: self.arena + (Payload::PLACED_MAX * slot) as u64,
        }
    }
}
