// A reader of a relocation section's entries: it holds the section's bytes and its position. Its functions are thin and leave
// the work to the cursor. Others read by `next_entry`, whose parameters are a plain slice and a number.
#![tactic(auto)]

ghost use Rattle.std.specs.Prelude.{◌≡◌};
ghost use Rattle.reader.specs.Entries.{next_from, reader_at, next_in};

use cursor::Cursor;
use elf::Relocation;

pub mod cursor;

// The section's bytes, and the number of the next entry.
#[derive(Clone, Copy)]
pub struct Reader<'a> {
    pub bytes: &'a [u8],
    pub at: usize,
}

impl<'a> Reader<'a> {
    pub fn new(bytes: &'a [u8], at: usize) -> Self
        ensures { result ≡ reader_at bytes.entry at }
    {
        Reader { bytes, at }
    }

    // The next entry and the cursor after it; nothing where no whole entry is left.
    pub fn next(self) -> Option<(Relocation, Cursor)>
        ensures { result ≡ next_in self.entry }
    {
        let cursor = Cursor { entry: self.at };
        cursor.next(self.bytes)
    }
}

// What a reader of these bytes answers at this entry.
pub fn next_entry(entries: &[u8], at: usize) -> Option<(Relocation, Cursor)>
    ensures { result ≡ next_from entries.now at }
{
    Reader::new(entries, at).next()
}
