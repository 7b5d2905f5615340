// What records do while no edit is open.
ghost use Rattle.std.specs.Prelude.{◌≡◌, List, length};
ghost use Rattle.heap_model.specs.Calls.{drained, drain_answer};
ghost use Rattle.heap_model.specs.Growth.{appended, appended_from, append_answer};
ghost use Rattle.binary_heap.specs.Heaps.{held, row_of};
ghost use Rattle.run_file.specs.Records.{PU, PI, RP, RE};
ghost use Rattle.run_step.specs.States.{resting, told_of};
ghost use Rattle.run_step.specs.Steps.{Acts, as_list, only_done};

use crate::fault::RecordFault;
use binary_heap::BinaryHeap;
use heap_model::fault::HeapFault;
use keepers::ceiling::Ceiling;
use kinds::kind::Kind;
use run_lines::reply::Reply;
use supplies::repeat::Repeat;

pub(crate) fn push<K: Kind>(
    heap: &mut BinaryHeap<'_, K>,
    bytes: &[u8],
) -> Result<Reply<K>, RecordFault>
    ensures { Acts K.Element.ordering K.codec (resting (held heap.old)) (resting (held heap.new)) (PU bytes.now) result }
{
    heap.push(K::decode(bytes)?)?;
    Ok(Reply::Done)
}

pub(crate) fn pop_if<K: Kind>(
    heap: &mut BinaryHeap<'_, K>,
    bytes: &[u8],
) -> Result<Reply<K>, RecordFault>
    ensures { Acts K.Element.ordering K.codec (resting (held heap.old)) (resting (held heap.new)) (PI bytes.now) result }
{
    let mut ceiling = Ceiling::new(K::decode(bytes)?);
    Ok(Reply::Element(heap.pop_if(&mut ceiling)))
}

pub(crate) fn repeat<K: Kind>(
    heap: &mut BinaryHeap<'_, K>,
    count: u16,
    bytes: &[u8],
) -> Result<Reply<K>, RecordFault>
    ensures { Acts K.Element.ordering K.codec (resting (held heap.old)) (resting (held heap.new)) (RP count bytes.now) result }
{
    let mut supply = Repeat::new(K::decode(bytes)?, count as usize);
    Ok(Reply::Count(heap.extend(&mut supply)?))
}

pub(crate) fn retain<K: Kind>(
    heap: &mut BinaryHeap<'_, K>,
    bytes: &[u8],
) -> Result<Reply<K>, RecordFault>
    ensures { Acts K.Element.ordering K.codec (resting (held heap.old)) (resting (held heap.new)) (RE bytes.now) result }
{
    heap.retain(&mut Ceiling::new(K::decode(bytes)?));
    Ok(Reply::Done)
}

pub(crate) fn append<K: Kind>(
    heap: &mut BinaryHeap<'_, K>,
    other: &mut BinaryHeap<'_, K>,
) -> Result<Reply<K>, RecordFault>
    ensures heap { held heap.new ≡ appended K.Element.ordering (held heap.old) (held other.old) }
    ensures other { held other.new ≡ appended_from (held heap.old) (held other.old) }
    ensures answer { (list : List K) → told_of list result ≡ only_done (append_answer (held heap.old) (held other.old)) }
{
    heap.append(other)?;
    Ok(Reply::Done)
}

#[tactic(auto, unfolding(heap_model::specs::Calls::drain_answer, heap_model::specs::Calls::drained_to))]
pub(crate) fn drain<K: Kind>(
    heap: &mut BinaryHeap<'_, K>,
    list: &mut [K],
) -> Result<Reply<K>, RecordFault>
    ensures heap { held heap.new ≡ drained (length list.new) (held heap.old) }
    ensures answer { told_of list.new result ≡ as_list (row_of heap.old) (drain_answer (length list.new) (held heap.old)) }
{
    Ok(Reply::Elements(heap.drain(list)?))
}

// Copies the row to the front of the list.
#[tactic(auto, unfolding(heap_model::specs::Calls::drain_answer))]
pub(crate) fn row<K: Kind>(
    heap: &BinaryHeap<'_, K>,
    list: &mut [K],
) -> Result<Reply<K>, RecordFault>
    ensures { told_of list.new result ≡ as_list (row_of heap.now) (drain_answer (length list.old) (held heap.now)) }
{
    let count = heap.len();
    if list.len() < count {
        return Err(HeapFault::ShortList.into());
    }
    copy_row(heap, &mut list[..count]);
    Ok(Reply::Elements(count))
}

#[tactic(auto, using(crate::proofs::Listing::item_copied, crate::proofs::Listing::item_there))]
fn copy_row<K: Kind>(heap: &BinaryHeap<'_, K>, list: &mut [K])
    requires { length list.old ≡ length (row_of heap.now) }
    ensures { list.new ≡ row_of heap.now }
{
    'row: for (i, place) in list.iter_mut().enumerate() {
        // `get` answers an option, though there is an element at every i.
        if let Some(x) = heap.get(i) {
            *place = *x;
        }
    }
}
