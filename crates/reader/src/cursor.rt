// A cursor over the entries of a relocation section.
ghost use Rattle.std.specs.Prelude.{◌≡◌};
ghost use Rattle.reader.specs.Entries.{first, next_of};

use elf::Relocation;

// The number of the next entry.
#[derive(Clone, Copy)]
pub struct Cursor {
    pub entry: usize,
}

impl Cursor {
    pub fn start() -> Self
        ensures { result ≡ first }
    {
        Cursor { entry: 0 }
    }

    // The entry at a cursor and the cursor after it; nothing where no whole entry is left.
    pub fn next(self, entries: &[u8]) -> Option<(Relocation, Cursor)>
        ensures { result ≡ next_of entries.now self }
    {
        let e = self.entry;
        if entries.len() / elf::RELOCATION_SIZE <= e {
            return None;
        }
        let r = elf::read_relocation(entries, elf::RELOCATION_SIZE * e);
        Some((r, Cursor { entry: e + 1 }))
    }
}
