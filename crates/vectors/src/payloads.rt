// A payload prepared, and the same file with one byte changed.
use super::{lists, print};
use machine::host::Host;
use machine::processor::Processor;
use prepare::prepare::Prepared;
use records::payload::{Edit, Payload};
use records::refusal::Refusal;
use std::io;

const FILE_SIZE: usize = 1176;

// An accepted file: the header; a function of 8 bytes; its string and the name xen_extra_version; the record that puts the function
// in that one's place; the notes of the two ids; three symbols; the relocations, one of the function and two of the record; the
// names of the sections and their 11 headers.
const FILE: [u8; FILE_SIZE] =
    *b"\x7fELF\x02\x01\x01\0\0\0\0\0\0\0\0\0\x01\0\x3e\0\x01\0\0\0\0\0\0\0\0\0\0\0\
    \0\0\0\0\0\0\0\0\xd8\x01\0\0\0\0\0\0\0\0\0\0\x40\0\0\0\0\0\x40\0\x0b\0\x0a\0\
    \x48\x8d\x05\0\0\0\0\xc3\
    Hello World\0xen_extra_version\0\
    \0\0\
    \0\0\0\0\0\0\0\0\0\0\0\0\0\0\0\0\0\0\0\0\0\0\0\0\x08\0\0\0\x0d\0\0\0\
    \x01\0\0\0\0\0\0\0\0\0\0\0\0\0\0\0\0\0\0\0\0\0\0\0\0\0\0\0\0\0\0\0\
    \x04\0\0\0\x04\0\0\0\x03\0\0\0GNU\0\x01\x02\x03\x04\
    \x04\0\0\0\x04\0\0\0\x03\0\0\0GNU\0\x05\x06\x07\x08\
    \0\0\0\0\0\0\0\0\0\0\0\0\0\0\0\0\0\0\0\0\0\0\0\0\
    \0\0\0\0\x03\0\x01\0\0\0\0\0\0\0\0\0\0\0\0\0\0\0\0\0\
    \0\0\0\0\x03\0\x03\0\0\0\0\0\0\0\0\0\0\0\0\0\0\0\0\0\
    \0\0\0\0\0\0\0\0\
    \x03\0\0\0\0\0\0\0\x02\0\0\0\x02\0\0\0\xfc\xff\xff\xff\xff\xff\xff\xff\
    \0\0\0\0\0\0\0\0\x01\0\0\0\x02\0\0\0\x0c\0\0\0\0\0\0\0\
    \x08\0\0\0\0\0\0\0\x01\0\0\0\x01\0\0\0\0\0\0\0\0\0\0\0\
    \0.symtab\0.strtab\0.shstrtab\0.rela.text\0.rodata\0.rela.livepatch.funcs\0.note.gnu.build-id\0.livepatch.depends\0\
    \0\0\0\0\0\0\
    \0\0\0\0\0\0\0\0\0\0\0\0\0\0\0\0\0\0\0\0\0\0\0\0\0\0\0\0\0\0\0\0\
    \0\0\0\0\0\0\0\0\0\0\0\0\0\0\0\0\0\0\0\0\0\0\0\0\0\0\0\0\0\0\0\0\
    \x20\0\0\0\x01\0\0\0\x06\0\0\0\0\0\0\0\0\0\0\0\0\0\0\0\x40\0\0\0\0\0\0\0\
    \x08\0\0\0\0\0\0\0\0\0\0\0\0\0\0\0\x01\0\0\0\0\0\0\0\0\0\0\0\0\0\0\0\
    \x1b\0\0\0\x04\0\0\0\x40\0\0\0\0\0\0\0\0\0\0\0\0\0\0\0\x20\x01\0\0\0\0\0\0\
    \x18\0\0\0\0\0\0\0\x08\0\0\0\x01\0\0\0\x08\0\0\0\0\0\0\0\x18\0\0\0\0\0\0\0\
    \x26\0\0\0\x01\0\0\0\x02\0\0\0\0\0\0\0\0\0\0\0\0\0\0\0\x48\0\0\0\0\0\0\0\
    \x1e\0\0\0\0\0\0\0\0\0\0\0\0\0\0\0\x01\0\0\0\0\0\0\0\0\0\0\0\0\0\0\0\
    \x33\0\0\0\x01\0\0\0\x03\0\0\0\0\0\0\0\0\0\0\0\0\0\0\0\x68\0\0\0\0\0\0\0\
    \x40\0\0\0\0\0\0\0\0\0\0\0\0\0\0\0\x08\0\0\0\0\0\0\0\0\0\0\0\0\0\0\0\
    \x2e\0\0\0\x04\0\0\0\x40\0\0\0\0\0\0\0\0\0\0\0\0\0\0\0\x38\x01\0\0\0\0\0\0\
    \x30\0\0\0\0\0\0\0\x08\0\0\0\x04\0\0\0\x08\0\0\0\0\0\0\0\x18\0\0\0\0\0\0\0\
    \x44\0\0\0\x07\0\0\0\x02\0\0\0\0\0\0\0\0\0\0\0\0\0\0\0\xa8\0\0\0\0\0\0\0\
    \x14\0\0\0\0\0\0\0\0\0\0\0\0\0\0\0\x04\0\0\0\0\0\0\0\0\0\0\0\0\0\0\0\
    \x57\0\0\0\x07\0\0\0\x02\0\0\0\0\0\0\0\0\0\0\0\0\0\0\0\xbc\0\0\0\0\0\0\0\
    \x14\0\0\0\0\0\0\0\0\0\0\0\0\0\0\0\x04\0\0\0\0\0\0\0\0\0\0\0\0\0\0\0\
    \x01\0\0\0\x02\0\0\0\0\0\0\0\0\0\0\0\0\0\0\0\0\0\0\0\xd0\0\0\0\0\0\0\0\
    \x48\0\0\0\0\0\0\0\x09\0\0\0\x03\0\0\0\x08\0\0\0\0\0\0\0\x18\0\0\0\0\0\0\0\
    \x09\0\0\0\x03\0\0\0\0\0\0\0\0\0\0\0\0\0\0\0\0\0\0\0\x18\x01\0\0\0\0\0\0\
    \x01\0\0\0\0\0\0\0\0\0\0\0\0\0\0\0\x01\0\0\0\0\0\0\0\0\0\0\0\0\0\0\0\
    \x11\0\0\0\x03\0\0\0\0\0\0\0\0\0\0\0\0\0\0\0\0\0\0\0\x68\x01\0\0\0\0\0\0\
    \x6a\0\0\0\0\0\0\0\0\0\0\0\0\0\0\0\x01\0\0\0\0\0\0\0\0\0\0\0\0\0\0\0";

// The text that has xen_extra_version, and a slot behind it.
fn host() -> Host {
    Host {
        processor: Processor::X86_64,
        text: 0xffff82d080000000,
        text_length: 0x1000000,
        slot: 0xffff82d081000000,
    }
}

fn prepared(
    file: &[u8; FILE_SIZE],
    image: &mut [u8; Payload::PLACED_MAX],
) -> Result<Prepared, Refusal> {
    let list = lists::EXAMPLE;
    prepare::prepare::prepare(file, &list, host(), image)
}

fn edit(rt: &impl Print, one: Edit) -> io::Result<()> {
    print::number(rt, b"offset of the first edit", one.offset as u64)?;
    print::number(rt, b"length of the first edit", one.length as u64)
}

fn answer(rt: &impl Print, one: Prepared) -> io::Result<()> {
    let edits = one.edits;
    print::number(rt, b"the payload's verdict", 0)?;
    print::number(rt, b"placed bytes", one.placed)?;
    print::number(rt, b"edits", one.edit_count as u64)?;
    edit(rt, edits[0])
}

fn front(rt: &impl Print, image: &[u8; Payload::PLACED_MAX]) -> io::Result<()> {
    print::first(rt, b"first bytes of the slot", image, 16)
}

fn accepted(rt: &impl Print) -> io::Result<()> {
    let file = FILE;
    let mut image = [0u8; Payload::PLACED_MAX];
    match prepared(&file, &mut image) {
        Ok(one) => answer(rt, one)?,
        Err(r) => print::number(rt, b"the payload's verdict", r.code())?,
    }
    front(rt, &image)
}

fn verdict(rt: &impl Print, label: &[u8], file: &[u8; FILE_SIZE]) -> io::Result<()> {
    let mut image = [0u8; Payload::PLACED_MAX];
    let code = match prepared(file, &mut image) {
        Ok(_) => 0,
        Err(r) => r.code(),
    };
    print::number(rt, label, code)
}

// The verdict where byte `at` of the file is `x`.
fn changed(rt: &impl Print, label: &[u8], at: usize, x: u8) -> io::Result<()> {
    let mut file = FILE;
    if at < FILE_SIZE {
        file[at] = x;
        verdict(rt, label, &file)?;
    }
    Ok(())
}

pub(crate) fn all(rt: &impl Print) -> io::Result<()> {
    accepted(rt)?;
    changed(rt, b"e_machine 3", 0x12, 3)?;
    changed(rt, b"section 3 of type 5", 0x29c, 5)?;
    changed(rt, b"section 6, a note with a name of 5 bytes", 0xa8, 5)?;
    changed(rt, b"section 5, entry 1 of type 3", 0x158, 3)?;
    changed(rt, b"record 0 of version 2", 0x88, 2)
}
