// The symbol list of document 01.
use super::print;
use records::refusal;
use std::io;

// Its 33 bytes: one name and its address.
pub(crate) const EXAMPLE: [u8; 33] =
    *b"\x00\x00\x00\x1d\x01\x00\x01\xff\xff\x82\xd0\x80\x13\x96\x3c\x11xen_extra_version";

// What a lookup finds, and how many entries it compares.
fn lookup(rt: &impl Print, label: &[u8], bytes: &[u8], name: &[u8]) -> io::Result<()> {
    let search = symbols::find(bytes, name);
    let found = search.found;
    match found {
        Some(a) => print::number(rt, label, a)?,
        None => print::word(rt, label, b"not in the list")?,
    }
    print::number(rt, b"entries compared", search.compared as u64)
}

pub(crate) fn all(rt: &impl Print) -> io::Result<()> {
    let one = EXAMPLE;
    print::number(
        rt,
        b"the list's verdict",
        refusal::code(symbols::check(&one)),
    )?;
    lookup(rt, b"xen_extra_version", &one, b"xen_extra_version")?;
    lookup(rt, b"xen_extra", &one, b"xen_extra")?;
    lookup(
        rt,
        b"the example without its last byte",
        &one[0..32],
        b"xen_extra_version",
    )
}
