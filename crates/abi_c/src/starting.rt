// Start-up.
ghost use Rattle.std.specs.Prelude.{◌≡◌};
ghost use Rattle.action_calls.specs.Changes.{memory, start_lent, start_told, StartKept};
ghost use Rattle.state_bytes.specs.Layout.{records_size};
ghost use Rattle.calls.specs.Told.{told};

// Arena and stores are zeroed, and the records are those of a state in which nothing is loaded. Refused, nothing is written.
#[unsafe(no_mangle)]
pub extern "C" fn urddolwy_start(
    records: &mut [u8],
    text: &[u8],
    text_base: u64,
    arena: &mut [u8],
    arena_base: u64,
    undo: &mut [u8],
    ids: &mut [u8],
    build_id: &[u8],
    cpus: u32,
) -> u64
    ensures ids_after { told result records.new (memory arena.new undo.new ids.new)
        ≡ start_told records.old
        (start_lent text.now text_base arena.old arena_base undo.old ids.old
        build_id.now cpus) }
    ensures start_kept { StartKept result
        (start_lent text.now text_base arena.old arena_base undo.old ids.old
        build_id.now cpus)
        records.new }
{
    abi::starting::urddolwy_start(
        records, text, text_base, arena, arena_base, undo, ids, build_id, cpus,
    )
}

// The bytes of the records buffer.
#[unsafe(no_mangle)]
pub extern "C" fn urddolwy_records_size() -> u64
    ensures { result ≡ records_size }
{
    abi::starting::urddolwy_records_size()
}
