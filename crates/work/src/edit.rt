// One edit laid or taken off.
ghost use Rattle.std.specs.Prelude.{◌≡◌, ◌<◌};
ghost use Rattle.records.specs.Limits.{records_max};
ghost use Rattle.machine.specs.Host.{machine_of};
ghost use Rattle.memory.specs.Memory.{slot_count, undo_at};
ghost use Rattle.work.specs.Work.{lent, laid, taken_off, made, Ready};

use machine::processor;
use machine::processor::Processor;
use records::payload::Payload;
use state::steps::Step;

// Where the undo record of a step begins.
fn undo_at(step: Step) -> usize
    requires { (step.slot < slot_count) × (step.number < records_max) }
    ensures { result ≡ undo_at step.slot step.number }
{
    (step.slot as usize * Payload::RECORDS_MAX + step.number as usize)
        * processor::EDIT_MAX as usize
}

// The bytes that the edit covers go to its undo record, and its own over them.
fn lay(text: &mut [u8], undo: &mut [u8], processor: Processor, step: Step)
    requires { Ready (machine_of processor) step (lent text.old undo.old) }
    ensures { lent text.new undo.new
        ≡ laid (machine_of processor) step (lent text.old undo.old) }
{
    let edit = step.edit;
    let start = edit.offset as usize;
    let end = start + edit.length as usize;
    let at = undo_at(step);
    words::bytes::fill(undo, at, processor::EDIT_MAX as usize, 0);
    words::bytes::copy(undo, at, &text[start..end]);
    processor.write_edit(text, start, edit);
}

// The saved bytes go back, and the undo record is zeroed.
fn take_off(text: &mut [u8], undo: &mut [u8], processor: Processor, step: Step)
    requires { Ready (machine_of processor) step (lent text.old undo.old) }
    ensures { lent text.new undo.new
        ≡ taken_off step (lent text.old undo.old) }
{
    let edit = step.edit;
    let record = undo_at(step);
    let end = record + edit.length as usize;
    words::bytes::copy(text, edit.offset as usize, &undo[record..end]);
    words::bytes::fill(undo, record, processor::EDIT_MAX as usize, 0);
}

// The step's edit is made.
pub fn make(text: &mut [u8], undo: &mut [u8], processor: Processor, step: Step)
    requires { Ready (machine_of processor) step (lent text.old undo.old) }
    ensures { lent text.new undo.new
        ≡ made (machine_of processor) step (lent text.old undo.old) }
{
    if step.lays {
        lay(text, undo, processor, step);
        return;
    }
    take_off(text, undo, processor, step);
}
