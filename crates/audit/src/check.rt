// Checks of a symbol list and of a file.
ghost use Rattle.std.specs.Prelude.{◌≡◌};
ghost use Rattle.audit.specs.Answers.{list_answer, file_answer};

use machine::processor::Processor;
use records::refusal;

// Whether the bytes are a symbol list: 0, or the refusal's number.
pub fn check_symbols(list: &[u8]) -> u64
    ensures { result ≡ list_answer list.now }
{
    refusal::code(symbols::check(list))
}

// Whether the file keeps the rules that it alone decides: 0, or the refusal's number and place.
pub fn check_file(file: &[u8]) -> u64
    ensures { result ≡ file_answer file.now }
{
    match payload::read::read(Processor::X86_64, file) {
        Ok(_) => 0,
        Err(r) => r.code(),
    }
}
