// What records do during an edit.
ghost use Rattle.std.specs.Prelude.{◌≡◌};
ghost use Rattle.heap_model.specs.Calls.{pop_answer, popped};
ghost use Rattle.binary_heap.specs.Edits.{edited};
ghost use Rattle.binary_heap.specs.Heaps.{held};
ghost use Rattle.run_file.specs.Records.{SE};
ghost use Rattle.run_step.specs.States.{edit as editing};
ghost use Rattle.run_step.specs.Steps.{Acts};

use crate::fault::RecordFault;
use binary_heap::BinaryHeap;
use binary_heap::edit::PeekMut;
use kinds::kind::Kind;
use run_lines::reply::Reply;

pub(crate) fn set<K: Kind>(edit: &mut PeekMut<'_, K>, bytes: &[u8]) -> Result<Reply<K>, RecordFault>
    ensures { Acts K.Element.ordering K.codec (editing (edited edit.old)) (editing (edited edit.new)) (SE bytes.now) result }
{
    edit.set(K::decode(bytes)?)?;
    Ok(Reply::Done)
}

// The heap, at rest again, and the front that left it.
pub(crate) fn pop<K: Kind>(edit: PeekMut<'_, K>) -> (BinaryHeap<'_, K>, Option<K>)
    ensures heap { held result.0 ≡ popped K.Element.ordering (edited edit.entry).heap }
    ensures front { result.1 ≡ pop_answer (edited edit.entry).heap }
{
    let mut place = K::blank();
    let mut wrote = false;
    let heap = edit.pop(&mut place, &mut wrote);
    (heap, wrote.then_some(place))
}
