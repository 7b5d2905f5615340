ghost use Rattle.binary_heap.specs.Heaps.{held};
ghost use Rattle.run_file.specs.Records.{asked};
ghost use Rattle.run_step.specs.States.{in_use_of};
ghost use Rattle.run_step.specs.Steps.{StepsInto};

use crate::edit;
use crate::fault::RecordFault::{EditOpen, NoEdit};
use crate::heaps::State::{Closed, Open};
use crate::heaps::{Heaps, Stepped, at_rest, in_edit};
use crate::rest::{append, drain, pop_if, push, repeat, retain, row};
use keepers::ration::Ration;
use kinds::kind::Kind;
use run_file::record::Record;
use run_lines::reply::Reply::{Done, Element, Moved};

// Carries a record out, or refuses it. Elements that it answers are put at the front of the list.
#[tactic(auto, using(crate::proofs::Acting::acts_into))]
pub fn step<'a, K: Kind>(heaps: Heaps<'a, K>, record: Record<'_>, list: &mut [K]) -> Stepped<'a, K>
    ensures { StepsInto K.Element.ordering K.codec list.new (in_use_of heaps.entry.state) (held heaps.entry.other) (asked «record».entry) result }
{
    let Heaps { state, mut other } = heaps;
    // Together, since each refuses by the other.
    match (state, record) {
        (Closed(mut heap), Record::Push(bytes)) => at_rest(push(&mut heap, bytes), heap, other),
        (Closed(mut heap), Record::Pop) => at_rest(Ok(Element(heap.pop())), heap, other),
        (Closed(heap), Record::Peek) => at_rest(Ok(Element(heap.peek().copied())), heap, other),
        (Closed(mut heap), Record::PopIf(bytes)) => at_rest(pop_if(&mut heap, bytes), heap, other),
        (Closed(mut heap), Record::Repeat(count, bytes)) => {
            at_rest(repeat(&mut heap, count, bytes), heap, other)
        }
        (Closed(mut heap), Record::Retain(bytes)) => at_rest(retain(&mut heap, bytes), heap, other),
        (Closed(mut heap), Record::Ration(count)) => {
            heap.retain(&mut Ration::new(count as usize));
            at_rest(Ok(Done), heap, other)
        }
        (Closed(mut heap), Record::Append) => at_rest(append(&mut heap, &mut other), heap, other),
        (Closed(heap), Record::Swap) => at_rest(Ok(Done), other, heap),
        (Closed(mut heap), Record::Clear) => {
            heap.clear();
            at_rest(Ok(Done), heap, other)
        }
        (Closed(mut heap), Record::Drain) => at_rest(drain(&mut heap, list), heap, other),
        (Closed(heap), Record::Row) => at_rest(row(&heap, list), heap, other),
        (Closed(heap), Record::PeekMut) => in_edit(Ok(Done), heap.peek_mut(), other),
        (Open(edit), Record::Peek) => in_edit(Ok(Element(edit.peek().copied())), edit, other),
        (Open(mut edit), Record::Set(bytes)) => in_edit(edit::set(&mut edit, bytes), edit, other),
        (Open(mut edit), Record::Refresh) => in_edit(Ok(Moved(edit.refresh())), edit, other),
        (Open(edit), Record::EditPop) => {
            let (heap, front) = edit::pop(edit);
            at_rest(Ok(Element(front)), heap, other)
        }
        (Open(edit), Record::Close) => at_rest(Ok(Done), edit.close(), other),
        // `Extend` is among them until it is built.
        (Closed(heap), _) => at_rest(Err(NoEdit), heap, other),
        (Open(edit), _) => in_edit(Err(EditOpen), edit, other),
    }
}
