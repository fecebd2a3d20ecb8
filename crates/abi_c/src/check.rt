// Checks of a symbol list and of a file.
ghost use Rattle.std.specs.Prelude.{◌≡◌};
ghost use Rattle.audit.specs.Answers.{list_answer, file_answer};

// Whether the bytes are a symbol list: 0, or the refusal's number.
#[unsafe(no_mangle)]
pub extern "C" fn urddolwy_check_symbols(list: &[u8]) -> u64
    ensures { result ≡ list_answer list.now }
{
    abi::check::urddolwy_check_symbols(list)
}

// Whether the file keeps the rules that it alone decides: 0, or the refusal's number and place.
#[unsafe(no_mangle)]
pub extern "C" fn urddolwy_check_file(file: &[u8]) -> u64
    ensures { result ≡ file_answer file.now }
{
    abi::check::urddolwy_check_file(file)
}
