#![tactic(auto)]

ghost use Rattle.std.specs.Prelude.{◌≡◌, ◌+◌, ◌-◌, ◌<◌, ◌≤◌, ◌++◌, length, take, drop, Some, MatchResult, ◌==◌, slice_get};
ghost use Rattle.std.specs.Option.{option_copied};
ghost use Rattle.account.specs.Account.{Promise};
ghost use Rattle.elements.specs.Refusals.{told};
ghost use Rattle.heap_model.specs.Calls.{front, reserve_answer, pushed_row, pushed, push_answer, popped_row, popped, pop_answer};
ghost use Rattle.heap_model.specs.Faults.{refuses_row, refuses_heap};
ghost use Rattle.heap_model.specs.Held.{places, empty_on};
ghost use Rattle.binary_heap.specs.Heaps.{held, row_of, HoldsOn};

use account::promise_holds;
use elements::element::Element;
use heap_model::fault::{HeapFault, TryReserveErrorKind};
use rows::sift::{sift_down_to_bottom, sift_up};

pub mod edit;
mod growth;
mod removal;

const MOST_PLACES: usize = 1_048_576;

// A priority queue on lent, fixed memory, and so on no `Vec`: its row is the first `len` places, the
// greatest element in front.
#[derive(Drop)]
pub struct BinaryHeap<'a, T> {
    memory: &'a mut [T],
    len: usize,
}

impl<'a, T: Element> BinaryHeap<'a, T> {
    pub fn new(memory: &'a mut [T]) -> BinaryHeap<'a, T>
        ensures heap { HoldsOn memory.entry result (empty_on memory.old) }
        ensures promise { Promise T.ordering }
    {
        promise_holds::<T>();
        BinaryHeap { memory, len: 0 }
    }

    // The length never passes the places, whatever the field holds.
    pub fn len(&self) -> usize
        ensures is { result ≡ length (row_of self.now) }
        ensures within { result ≤ places (held self.now) }
    {
        self.len.min(self.capacity())
    }

    pub fn is_empty(&self) -> bool
        ensures { result ≡ (length (row_of self.now) == 0) }
    {
        self.len() == 0
    }

    pub fn capacity(&self) -> usize
        ensures { result ≡ places (held self.now) }
    {
        self.memory.len().min(MOST_PLACES)
    }

    pub fn get(&self, position: usize) -> Option<&T>
        ensures { option_copied result ≡ slice_get (row_of self.now) position }
    {
        self.row().get(position)
    }

    pub fn peek(&self) -> Option<&T>
        ensures { option_copied result ≡ front (row_of self.now) }
    {
        self.row().first()
    }

    // To read; what is written goes by a range of `memory`, since a `&mut` that a method hands on is not
    // followed back to the memory.
    fn row(&self) -> &[T]
        ensures { result.now ≡ row_of self.now }
    {
        &self.memory[..self.len()]
    }

    #[tactic(auto, unfolding(heap_model::specs::Calls::reserve_answer))]
    pub fn try_reserve(&self, additional: usize) -> Result<(), TryReserveErrorKind>
        ensures answer { told refuses_row result ≡ reserve_answer additional (held self.now) }
        ensures room { MatchResult result (λ _. length (row_of self.now) + additional ≤ places (held self.now)) (λ _. places (held self.now) < length (row_of self.now) + additional) }
    {
        let needed = self
            .len()
            .checked_add(additional)
            .ok_or(TryReserveErrorKind::CapacityOverflow)?;
        let places = self.capacity();
        if needed > places {
            return Err(TryReserveErrorKind::AllocError {
                count: needed - places,
            });
        }
        Ok(())
    }

    #[tactic(auto, unfolding(heap_model::specs::Calls::push_answer, heap_model::specs::Calls::reserve_answer, heap_model::specs::Calls::full, heap_model::specs::Calls::pushed))]
    pub fn push(&mut self, x: T) -> Result<(), HeapFault>
        ensures heap { HoldsOn self.old.memory self.new (pushed T.ordering x (held self.old)) }
        ensures answer { told refuses_heap result ≡ push_answer (held self.old) }
    {
        let at = self.len();
        self.try_reserve(1)?;
        put_last(&mut self.memory[0..at + 1], x);
        self.len = at + 1;
        Ok(())
    }

    #[tactic(auto, using(heap_model::proofs::Popping::pops), unfolding(heap_model::specs::Calls::popped))]
    pub fn pop(&mut self) -> Option<T>
        ensures heap { HoldsOn self.old.memory self.new (popped T.ordering (held self.old)) }
        ensures answer { result ≡ pop_answer (held self.old) }
    {
        let last = self.len().checked_sub(1)?;
        let first = take_front(&mut self.memory[0..last + 1]);
        self.len = last;
        Some(first)
    }
}

// Writes x at the end of the row and sifts it up.
#[tactic(auto, using(heap_model::proofs::Pushing::puts), unfolding(heap_model::specs::Calls::pushed_row))]
fn put_last<T: Element>(row: &mut [T], x: T)
    requires { 0 < length row.old }
    ensures { row.new ≡ pushed_row T.ordering x (take (length row.old - 1) row.old) }
{
    let at = row.len() - 1;
    row[at] = x;
    sift_up(row, 0, at);
}

// Hands the front out; the last element replaces it, unless it was alone, and leaves its place as it was.
#[tactic(auto, using(heap_model::proofs::Popping::takes_front))]
fn take_front<T: Element>(row: &mut [T]) -> T
    requires { 0 < length row.old }
    ensures front { front row.old ≡ Some result }
    ensures row { row.new ≡ popped_row T.ordering row.old ++ drop (length row.old - 1) row.old }
{
    let first = row[0];
    let end = row.len() - 1;
    if end > 0 {
        row[0] = row[end];
        sift_down_to_bottom(&mut row[0..end], 0);
    }
    first
}
