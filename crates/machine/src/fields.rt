// The fields that relocations store.
ghost use Rattle.std.specs.Prelude.{◌≡◌, ◌+◌, ◌≤◌, length};
ghost use Rattle.machine.specs.Host.{rule_of, with_field};

use records::refusal::Reason;

// What a relocation stores.
#[derive(Clone, Copy)]
pub enum FieldType {
    // S + A, in 8 bytes.
    Absolute,
    // S + A - P, in 4 bytes.
    Relative,
}

impl FieldType {
    // How many bytes the field has.
    pub fn width(self) -> u64
        ensures { result ≡ (rule_of self).width }
    {
        match self {
            FieldType::Absolute => 8,
            FieldType::Relative => 4,
        }
    }

    // Whether the field may stand at the address `p`.
    pub fn is_aligned(self, p: u64) -> bool
        ensures { result ≡ (rule_of self).aligned p }
    {
        match self {
            FieldType::Absolute => true,
            FieldType::Relative => true,
        }
    }

    // The value stored, of the symbol's value, the addend and the field's address, modulo 2^64.
    pub fn value(self, s: u64, a: u64, p: u64) -> u64
        ensures { result ≡ (rule_of self).value s a p }
    {
        let target = words::address::add(s, a);
        match self {
            FieldType::Absolute => target,
            FieldType::Relative => words::address::subtract(target, p),
        }
    }

    // Whether the field can take the value, or why it cannot.
    pub fn check(self, v: u64) -> Result<(), Reason>
        ensures { result ≡ (rule_of self).fault v }
    {
        match self {
            FieldType::Absolute => Ok(()),
            FieldType::Relative => {
                if !words::address::fits_signed(v, 32) {
                    return Err(Reason::OutOfRange);
                }
                Ok(())
            }
        }
    }

    // The value stored into the field at `at`.
    pub fn store(self, bytes: &mut [u8], at: usize, v: u64)
        requires { at + (rule_of self).width ≤ length bytes.old }
        ensures { bytes.new ≡ with_field self bytes.old at v }
    {
        match self {
            FieldType::Absolute => words::le::write(bytes, at, 8, v),
            FieldType::Relative => words::le::write(bytes, at, 4, v),
        }
    }
}
