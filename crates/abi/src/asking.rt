// Get, list and the top build-id.
ghost use Rattle.std.specs.Prelude.{◌≡◌, length};
ghost use Rattle.listing.specs.List.{buffers};
ghost use Rattle.questions.specs.Questions.{asked, get_asked, list_asking, list_asked, top_asked};

// Status and last result of the payload of this name.
#[unsafe(no_mangle)]
pub extern "C" fn urddolwy_get(records: &[u8], name: &[u8], out: &mut [u8]) -> u64
    ensures { asked result out.new ≡ get_asked records.now name.now out.old }
{
    questions::get(records, name, out)
}

// The list of payloads from `idx` on, at most `nr`.
#[unsafe(no_mangle)]
pub extern "C" fn urddolwy_list(
    records: &[u8],
    idx: u32,
    nr: u32,
    statuses: &mut [u8],
    names: &mut [u8],
    lengths: &mut [u8],
    out: &mut [u8],
) -> u64
    ensures { list_asking (asked result out.new) (buffers statuses.new names.new lengths.new)
        ≡ list_asked records.now idx nr
        (buffers statuses.old names.old lengths.old) out.old }
{
    questions::list(records, idx, nr, statuses, names, lengths, out)
}

// Where the top build-id stands: in which buffer, from where on, and its length.
#[unsafe(no_mangle)]
pub extern "C" fn urddolwy_top_build_id(
    records: &[u8],
    build_id: &[u8],
    ids: &[u8],
    out: &mut [u8],
) -> u64
    ensures { asked result out.new
        ≡ top_asked records.now build_id.now ids.now out.old }
{
    questions::top_build_id(records, build_id, ids, out)
}
