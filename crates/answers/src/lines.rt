// An answer of one line.
ghost use Rattle.std.specs.Prelude.{◌≡◌, [], ◌∷◌, ◌++◌, ◌+◌, ◌≤◌, length};
ghost use Rattle.script.specs.Decimal.{decimal};
ghost use Rattle.script.specs.Fields.{space};
ghost use Rattle.answers.specs.Answers.{
  bad_line,
  place_numbers,
  refusal_line,
  verdict_line,
  status_word,
  status_line,
  got_line,
};
ghost use Rattle.answers.specs.Written.{written, writing, line_room};

use super::{numbers, pieces};
use queries::get::Got;
use records::refusal::{Place, Refusal};

pub fn bad_line(out: &mut [u8], at: usize, n: u64) -> usize
    requires { at + line_room ≤ length out.old }
    ensures { written out.new result ≡ writing out.old at (bad_line n) }
{
    let words = pieces::text(out, at, b"bad line ");
    let digits = numbers::decimal(out, words, n);
    pieces::byte(out, digits, b'\n')
}

// An entry of a section.
fn two_numbers(out: &mut [u8], at: usize, i: u64, e: u64) -> usize
    requires { at + 41 ≤ length out.old }
    ensures { written out.new result
        ≡ writing out.old at (decimal i ++ (space ∷ []) ++ decimal e) }
{
    let first = numbers::decimal(out, at, i);
    let space = pieces::byte(out, first, b' ');
    numbers::decimal(out, space, e)
}

fn place(out: &mut [u8], at: usize, place: Place) -> usize
    requires { at + 41 ≤ length out.old }
    ensures { written out.new result ≡ writing out.old at (place_numbers place) }
{
    match place {
        Place::Nowhere => numbers::decimal(out, at, 0),
        Place::Section(i) => numbers::decimal(out, at, i as u64),
        Place::Entry(i, e) => two_numbers(out, at, i as u64, e as u64),
        Place::Record(r) => numbers::decimal(out, at, r as u64),
    }
}

pub(crate) fn refusal(out: &mut [u8], at: usize, r: Refusal) -> usize
    requires { at + line_room ≤ length out.old }
    ensures { written out.new result ≡ writing out.old at (refusal_line r) }
{
    let reason = r.reason;
    let number = reason.number();
    let there = r.place;
    let words = pieces::text(out, at, b"no ");
    let first = numbers::decimal(out, words, number);
    let space = pieces::byte(out, first, b' ');
    let second = place(out, space, there);
    pieces::byte(out, second, b'\n')
}

pub fn verdict(out: &mut [u8], at: usize, verdict: Result<(), Refusal>) -> usize
    requires { at + line_room ≤ length out.old }
    ensures { written out.new result ≡ writing out.old at (verdict_line verdict) }
{
    match verdict {
        Ok(()) => pieces::text(out, at, b"ok\n"),
        Err(r) => refusal(out, at, r),
    }
}

fn status_word(out: &mut [u8], at: usize, status: u32) -> usize
    requires { at + 7 ≤ length out.old }
    ensures { written out.new result ≡ writing out.old at (status_word status) }
{
    if status == 2 {
        return pieces::text(out, at, b"applied");
    }
    pieces::text(out, at, b"checked")
}

pub(crate) fn status(out: &mut [u8], at: usize, status: u32, res: u32) -> usize
    requires { at + 30 ≤ length out.old }
    ensures { written out.new result ≡ writing out.old at (status_line status res) }
{
    let word = status_word(out, at, status);
    let space = pieces::byte(out, word, b' ');
    let number = numbers::integer(out, space, res);
    pieces::byte(out, number, b'\n')
}

pub fn got(out: &mut [u8], at: usize, answer: Result<Got, Refusal>) -> usize
    requires { at + line_room ≤ length out.old }
    ensures { written out.new result ≡ writing out.old at (got_line answer) }
{
    match answer {
        Ok(got) => status(out, at, got.status, got.result),
        Err(r) => refusal(out, at, r),
    }
}
