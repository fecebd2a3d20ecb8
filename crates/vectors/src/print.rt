// One line to standard output: a label, a colon, and a result.
use std::io;

fn start(rt: &impl Print, label: &[u8]) -> io::Result<()> {
    rt.write_all(label)?;
    print!(rt; ":")
}

fn end(rt: &impl Print) -> io::Result<()> {
    println!(rt)
}

pub(crate) fn word(rt: &impl Print, label: &[u8], text: &[u8]) -> io::Result<()> {
    start(rt, label)?;
    print!(rt; " ")?;
    rt.write_all(text)?;
    end(rt)
}

pub(crate) fn number(rt: &impl Print, label: &[u8], n: u64) -> io::Result<()> {
    start(rt, label)?;
    print!(rt; " {n}")?;
    end(rt)
}

// A byte as two hexadecimal digits.
fn byte(rt: &impl Print, x: u8) -> io::Result<()> {
    print!(rt; " {x:02x}")
}

pub(crate) fn bytes(rt: &impl Print, label: &[u8], s: &[u8]) -> io::Result<()> {
    start(rt, label)?;
    for x in s {
        byte(rt, *x)?;
    }
    end(rt)
}

// The first n bytes, where there are as many.
pub(crate) fn first(rt: &impl Print, label: &[u8], s: &[u8], n: usize) -> io::Result<()> {
    if n <= s.len() {
        bytes(rt, label, &s[0..n])?;
    }
    Ok(())
}
