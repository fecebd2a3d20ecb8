// The value S of a symbol.
ghost use Rattle.std.specs.Prelude.{◌≡◌};
ghost use Rattle.elf.specs.Name.{name_in};
ghost use Rattle.linking.specs.Symbols.{named_value};

use records::refusal::Reason;

// The value of an undefined symbol: its name, which begins at `name` of the string table, looked up in the symbol list. A weak
// one that is not listed is 0.
pub(crate) fn named_value(strings: &[u8], list: &[u8], name: u64, weak: bool) -> Result<u64, Reason>
    ensures { result ≡ named_value weak list.now (name_in strings.now name) }
{
    let start = name as usize;
    let Some(end) = elf::name_end(strings, name) else {
        return Err(Reason::Invalid);
    };
    let search = symbols::find(list, &strings[start..end]);
    match search.found {
        Some(a) => Ok(a),
        None if weak => Ok(0),
        None => Err(Reason::NotListed),
    }
}
