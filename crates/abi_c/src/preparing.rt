// A payload prepared for its slot, into the caller's buffers.
ghost use Rattle.acceptance.specs.Stages.{setting};
ghost use Rattle.audit.specs.Preparing.{host_of, buffers, left, Answers};

// The payload `file` for the slot at `slot` and the `size` bytes of text at `text`: 0, or the refusal's number. Accepted, the slot's
// bytes, the edits and the summary are written; refused, nothing is.
#[unsafe(no_mangle)]
pub extern "C" fn urddolwy_prepare(
    file: &[u8],
    list: &[u8],
    text: u64,
    size: u64,
    slot: u64,
    image: &mut [u8],
    edits: &mut [u8],
    summary: &mut [u8],
) -> u64
    ensures { Answers (setting (host_of text size slot) list.now) file.now
        (buffers image.old edits.old summary.old)
        (left result (buffers image.new edits.new summary.new)) }
{
    abi::preparing::urddolwy_prepare(file, list, text, size, slot, image, edits, summary)
}
