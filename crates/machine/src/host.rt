// What a payload is prepared for.
use super::processor::Processor;

// The processor; the address and length of the hypervisor's text; the address of the payload's slot.
#[derive(Clone, Copy)]
pub struct Host {
    pub processor: Processor,
    pub text: u64,
    pub text_length: u64,
    pub slot: u64,
}

impl Host {
    pub const TEXT_MAX: u64 = 16777216;
}
