// Standard input and output, and what failed there.
ghost use Rattle.std.specs.Prelude.{◌≤◌, length};

use std::io;
use std::io::{Read, Stdin, Stdout};

#[derive(Drop)]
pub(crate) struct Streams {
    input: Stdin,
    output: Stdout,
    outcome: io::Result<()>,
}

impl Streams {
    pub(crate) fn new(rt: &HostRuntime) -> Streams {
        Streams {
            input: rt.stdin(),
            output: rt.stdout(),
            outcome: Ok(()),
        }
    }

    // Reads once; answers how many bytes came: none at the input's end, nor where the read fails.
    pub(crate) fn read(&mut self, buf: &mut [u8]) -> usize
        ensures { result ≤ length buf.new }
    {
        match self.input.read(buf) {
            Ok(n) => n,
            Err(e) => {
                self.outcome = Err(e);
                0
            }
        }
    }

    // Writes all the bytes. After a failure nothing more is written.
    pub(crate) fn write(&mut self, bytes: &[u8]) {
        if self.outcome.is_ok() {
            self.outcome = self.output.write_all(bytes);
        }
    }

    pub(crate) fn has_failed(&self) -> bool {
        self.outcome.is_err()
    }

    pub(crate) fn outcome(self) -> io::Result<()> {
        let Streams {
            input: _,
            output: _,
            outcome,
        } = self;
        outcome
    }
}
