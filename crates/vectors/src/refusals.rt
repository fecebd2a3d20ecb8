// Refusals as numbers.
use super::print;
use records::refusal::{Place, Reason, Refusal};
use std::io;

fn refusal(rt: &impl Print, label: &[u8], reason: Reason, place: Place) -> io::Result<()> {
    print::number(rt, label, Refusal::new(reason, place).code())
}

pub(crate) fn all(rt: &impl Print) -> io::Result<()> {
    refusal(rt, b"22 nowhere", Reason::Invalid, Place::Nowhere)?;
    refusal(rt, b"95 section 3", Reason::Unsupported, Place::Section(3))?;
    refusal(
        rt,
        b"34 section 5 entry 7",
        Reason::OutOfRange,
        Place::Entry(5, 7),
    )?;
    refusal(rt, b"22 record 31", Reason::Invalid, Place::Record(31))
}
