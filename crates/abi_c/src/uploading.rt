// An upload.
ghost use Rattle.upload.specs.Upload.{lent, request};
ghost use Rattle.upload_call.specs.Changes.{Uploads};
ghost use Rattle.calls.specs.Told.{told};

// The payload `file` under `name`, its undefined symbols looked up in `list`. Accepted, the records, the lowest free slot and its id store entry are
// written; refused, nothing is.
#[unsafe(no_mangle)]
pub extern "C" fn urddolwy_upload(
    records: &mut [u8],
    arena: &mut [u8],
    ids: &mut [u8],
    name: &[u8],
    list: &[u8],
    file: &[u8],
) -> u64
    ensures { Uploads records.old (lent arena.old ids.old)
        (request name.now list.now file.now)
        (told result records.new (lent arena.new ids.new)) }
{
    abi::uploading::urddolwy_upload(records, arena, ids, name, list, file)
}
