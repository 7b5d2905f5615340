// The calls that bring in many elements at once.
ghost use Rattle.std.specs.Prelude.{◌≡◌, ◌+◌, ◌-◌, ◌≤◌, min, ◌++◌, length, take, drop};
ghost use Rattle.elements.specs.Refusals.{told};
ghost use Rattle.heap_model.specs.Faults.{refuses_heap};
ghost use Rattle.heap_model.specs.Growth.{taken, extended_row, extended, extend_answer, joined, second, appended_row, appended, appended_from, append_answer, adopted, adopt_answer};
ghost use Rattle.binary_heap.specs.Heaps.{held, HoldsOn};

use crate::BinaryHeap;
use elements::element::Element;
use heap_model::fault::{HeapFault, TryReserveErrorKind};
use rows::rebuild::{rebuild, rebuild_tail};
use supplies::fill::fill;
use supplies::supply::Supply;

impl<'a, T: Element> BinaryHeap<'a, T> {
    #[tactic(auto, using(heap_model::proofs::Holding::writes), unfolding(heap_model::specs::Growth::extended, heap_model::specs::Growth::extend_answer, heap_model::specs::Growth::taken))]
    pub fn extend<S: Supply<T>>(&mut self, supply: &mut S) -> Result<usize, HeapFault>
        ensures heap { HoldsOn self.old.memory self.new (extended T.ordering (S.rest supply.old) (held self.old)) }
        ensures answer { told refuses_heap result ≡ extend_answer (S.rest supply.old) (held self.old) }
        ensures supply { S.rest supply.new ≡ drop (taken (S.rest supply.old) (held self.old)) (S.rest supply.old) }
    {
        let start = self.len();
        let end = self.capacity();
        let count = extend_places(&mut self.memory[0..end], start, supply);
        self.len = start + count;
        if supply.more() {
            return Err(TryReserveErrorKind::AllocError { count }.into());
        }
        Ok(count)
    }

    #[tactic(auto, unfolding(heap_model::specs::Growth::append_answer, heap_model::specs::Growth::appended, heap_model::specs::Growth::appended_from, heap_model::specs::Calls::reserve_answer))]
    pub fn append(&mut self, other: &mut BinaryHeap<'_, T>) -> Result<(), HeapFault>
        ensures heap { HoldsOn self.old.memory self.new (appended T.ordering (held self.old) (held other.old)) }
        ensures other { HoldsOn other.old.memory other.new (appended_from (held self.old) (held other.old)) }
        ensures answer { told refuses_heap result ≡ append_answer (held self.old) (held other.old) }
    {
        let ours = self.len();
        let theirs = other.len();
        self.try_reserve(theirs)?;
        append_row(&mut self.memory[0..ours + theirs], ours, other.row());
        self.len = ours + theirs;
        other.len = 0;
        Ok(())
    }

    #[tactic(auto, unfolding(heap_model::specs::Growth::adopt_answer, heap_model::specs::Growth::adopted, heap_model::specs::Calls::reserve_answer))]
    pub fn adopt(&mut self, n: usize) -> Result<(), HeapFault>
        ensures heap { HoldsOn self.old.memory self.new (adopted T.ordering n (held self.old)) }
        ensures answer { told refuses_heap result ≡ adopt_answer n (held self.old) }
    {
        if self.len() > 0 {
            return Err(HeapFault::NotEmpty);
        }
        self.try_reserve(n)?;
        rebuild(&mut self.memory[0..n]);
        self.len = n;
        Ok(())
    }
}

// Puts what the supply has behind the row of `start` elements, while a place is free, and takes it in; answers how many.
// A slice and a position in it come apart at once, here and below, so no struct holds both.
#[tactic(auto, using(heap_model::proofs::Extending::fills), unfolding(heap_model::specs::Growth::extended_row))]
fn extend_places<T: Element, S: Supply<T>>(places: &mut [T], start: usize, supply: &mut S) -> usize
    requires { start ≤ length places.old }
    ensures count { result ≡ min (length places.old - start) (length (S.rest supply.old)) }
    ensures places { places.new ≡ extended_row T.ordering (take start places.old) (take result (S.rest supply.old)) ++ drop (start + result) places.old }
    ensures supply { S.rest supply.new ≡ drop result (S.rest supply.old) }
{
    let (_, free) = places.split_at_mut(start);
    let count = fill(free, supply);
    rebuild_tail(&mut places[0..start + count], start);
    count
}

// Joins another row to that of the first `ours` elements of `row`, which has places for both.
#[tactic(auto, unfolding(heap_model::specs::Growth::appended_row))]
fn append_row<T: Element>(row: &mut [T], ours: usize, other: &[T])
    requires { length row.old ≡ ours + length other.now }
    ensures { row.new ≡ appended_row T.ordering (take ours row.old) other.now }
{
    let second = join(row, ours, other);
    rebuild_tail(row, second);
}

// The longer of two rows goes first; answers where the second begins.
fn join<T: Copy>(row: &mut [T], ours: usize, other: &[T]) -> usize
    requires { length row.old ≡ ours + length other.now }
    ensures row { row.new ≡ joined (take ours row.old) other.now }
    ensures second { result ≡ second (take ours row.old) other.now }
{
    let theirs = other.len();
    if ours < theirs {
        row.copy_within(0..ours, theirs);
        row[0..theirs].copy_from_slice(other);
        theirs
    } else {
        row[ours..ours + theirs].copy_from_slice(other);
        ours
    }
}
