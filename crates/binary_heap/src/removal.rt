// The calls that take elements out by a keeper's leave, or all at once.
ghost use Rattle.std.specs.Prelude.{◌≡◌, [], ◌++◌, length, drop};
ghost use Rattle.elements.specs.Refusals.{told};
ghost use Rattle.heap_model.specs.Calls.{front, popped_if, pop_if_answer, cleared, drained, drain_answer, drained_to};
ghost use Rattle.heap_model.specs.Faults.{refuses_heap};
ghost use Rattle.heap_model.specs.Retention.{holds_on, retained_row, retained};
ghost use Rattle.keepers.specs.Keeps.{asked, holds_through};
ghost use Rattle.binary_heap.specs.Heaps.{held, row_of, HoldsOn};

use crate::BinaryHeap;
use elements::element::Element;
use heap_model::fault::HeapFault;
use keepers::close_up::{Closed, close_up};
use keepers::keeper::Keeper;
use rows::rebuild::rebuild_tail;

impl<'a, T: Element> BinaryHeap<'a, T> {
    pub fn pop_if<K: Keeper<T>>(&mut self, keeper: &mut K) -> Option<T>
        ensures heap { HoldsOn self.old.memory self.new (popped_if T.ordering (asked K.step (K.holds keeper.old) []) (held self.old)) }
        ensures answer { result ≡ pop_if_answer (asked K.step (K.holds keeper.old) []) (held self.old) }
        ensures keeper { K.holds keeper.new ≡ holds_on K.step (K.holds keeper.old) (front (row_of self.old)) }
    {
        let x = *self.peek()?;
        // `then` would nest the option that `pop` answers.
        if keeper.keep(&x) { self.pop() } else { None }
    }

    #[tactic(auto, using(heap_model::proofs::Holding::writes), unfolding(heap_model::specs::Retention::retained))]
    pub fn retain<K: Keeper<T>>(&mut self, keeper: &mut K)
        ensures heap { HoldsOn self.old.memory self.new (retained T.ordering (asked K.step (K.holds keeper.old)) (held self.old)) }
        ensures keeper { K.holds keeper.new ≡ holds_through K.step (K.holds keeper.old) (row_of self.old) }
    {
        let n = self.len();
        self.len = retain_row(&mut self.memory[0..n], keeper);
    }

    #[tactic(auto, unfolding(heap_model::specs::Calls::drained, heap_model::specs::Calls::drained_to, heap_model::specs::Calls::drain_answer))]
    pub fn drain(&mut self, list: &mut [T]) -> Result<usize, HeapFault>
        ensures heap { HoldsOn self.old.memory self.new (drained (length list.old) (held self.old)) }
        ensures answer { told refuses_heap result ≡ drain_answer (length list.old) (held self.old) }
        ensures list { list.new ≡ drained_to (row_of self.old) list.old }
    {
        let n = self.len();
        if list.len() < n {
            return Err(HeapFault::ShortList);
        }
        list[0..n].copy_from_slice(self.row());
        self.clear();
        Ok(n)
    }

    pub fn clear(&mut self)
        ensures heap { HoldsOn self.old.memory self.new (cleared (held self.old)) }
    {
        self.len = 0;
    }
}

// Drops what the keeper says no to; answers how many stay.
#[tactic(auto, using(heap_model::proofs::Retaining::retains), unfolding(heap_model::specs::Retention::retained_row))]
fn retain_row<T: Element, K: Keeper<T>>(row: &mut [T], keeper: &mut K) -> usize
    ensures count { result ≡ length (retained_row T.ordering (asked K.step (K.holds keeper.old)) row.old) }
    ensures row { row.new ≡ retained_row T.ordering (asked K.step (K.holds keeper.old)) row.old ++ drop result row.old }
    ensures keeper { K.holds keeper.new ≡ holds_through K.step (K.holds keeper.old) row.old }
{
    let Closed { count, first } = close_up(row, keeper);
    if let Some(first) = first {
        rebuild_tail(&mut row[0..count], first);
    }
    count
}
