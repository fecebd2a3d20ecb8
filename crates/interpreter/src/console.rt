// What the console keeps between two lines, beside the loader's state and the buffers.
ghost use Rattle.std.specs.Prelude.{◌≡◌};
ghost use Rattle.interpreter.specs.Parts.{counted, with_mode};
ghost use Rattle.interpreter.specs.Standing.{at_first};

use memory::config::Config;
use records::payload::Payload;
use state::state::State;

// How the next line is read: before a start-up succeeded, as a command, as a payload's, as a dropped payload's.
#[derive(Clone, Copy)]
pub enum Mode {
    Off,
    Ready,
    Payload,
    Dropped,
}

// The lines read so far, the mode, and how many bytes of each buffer count.
#[derive(Clone, Copy)]
pub struct Console {
    pub lines: u64,
    pub mode: Mode,
    pub text: usize,
    pub id: usize,
    pub name: usize,
    pub list: usize,
    pub file: usize,
}

// What a line gives: the console and the loader's state after it, and how many bytes were written.
#[derive(Clone, Copy)]
pub struct Stepped {
    pub console: Console,
    pub state: State,
    pub written: usize,
}

impl Console {
    // The most bytes of a line, and of text.
    pub const LINE_MAX: usize = 4096;

    pub const TEXT_MAX: usize = 65536;

    // A line's name with its zero; a payload and one byte more, so that one that is too large is seen; the longest answer.
    pub const NAME_ROOM: usize = Console::LINE_MAX + 1;

    pub const FILE_ROOM: usize = Payload::FILE_MAX + 1;

    pub const OUT_ROOM: usize = 256 * (Config::SLOTS + 1);

    // Before the first line.
    pub fn first() -> Self
        ensures { result ≡ at_first }
    {
        Console {
            lines: 0,
            mode: Mode::Off,
            text: 0,
            id: 0,
            name: 0,
            list: 0,
            file: 0,
        }
    }

    // One line more.
    pub(crate) fn counted(self) -> Self
        ensures { result ≡ counted self }
    {
        let mut next = self;
        next.lines = std::num::wrapping_add_u64(self.lines, 1);
        next
    }

    // The next line is read so.
    pub(crate) fn with_mode(self, mode: Mode) -> Self
        ensures { result ≡ with_mode self mode }
    {
        Console {
            lines: self.lines,
            mode,
            text: self.text,
            id: self.id,
            name: self.name,
            list: self.list,
            file: self.file,
        }
    }
}
