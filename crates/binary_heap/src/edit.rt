// An edit of the front: the heap is moved into it, and comes out again by `close` or `pop`.
ghost use Rattle.std.specs.Prelude.{◌≡◌, Some, None, MatchOption};
ghost use Rattle.std.specs.Option.{option_copied};
ghost use Rattle.elements.specs.Refusals.{told};
ghost use Rattle.rows.specs.Sifts.{sift_down};
ghost use Rattle.heap_model.specs.Calls.{front, popped};
ghost use Rattle.heap_model.specs.Edits.{opened, front_set, set_answer, refreshed, refresh_answer, settled, place_after, mark_after};
ghost use Rattle.heap_model.specs.Faults.{refuses_heap};
ghost use Rattle.heap_model.specs.Held.{leave};
ghost use Rattle.binary_heap.specs.Edits.{edited, EditsOn};
ghost use Rattle.binary_heap.specs.Heaps.{held, row_of, HoldsOn};

use crate::BinaryHeap;
use elements::element::Element;
use heap_model::fault::HeapFault;
use rows::sift::sift_down;

// `exposed` where the front was written since it was last put in order; a flag, since `refresh` may be
// asked of any edit.
#[derive(Drop)]
pub struct PeekMut<'a, T> {
    heap: BinaryHeap<'a, T>,
    exposed: bool,
}

impl<'a, T: Element> BinaryHeap<'a, T> {
    pub fn peek_mut(self) -> PeekMut<'a, T>
        ensures edit { EditsOn self.entry.memory result (opened (held self.entry)) }
    {
        PeekMut {
            heap: self,
            exposed: false,
        }
    }

    // Sifts the front down; answers where it then stands, and 0 on an empty row, as the definition does.
    #[tactic(auto, using(heap_model::proofs::Editing::sifts_none))]
    fn settle(&mut self) -> usize
        ensures heap { HoldsOn self.old.memory self.new (leave (sift_down T.ordering (row_of self.old) 0).row (held self.old)) }
        ensures at { result ≡ (sift_down T.ordering (row_of self.old) 0).at }
    {
        let n = self.len();
        if n == 0 {
            return 0;
        }
        sift_down(&mut self.memory[0..n], 0)
    }
}

impl<'a, T: Element> PeekMut<'a, T> {
    pub fn peek(&self) -> Option<&T>
        ensures { option_copied result ≡ front (edited self.now).heap.row }
    {
        self.heap.peek()
    }

    #[tactic(auto, unfolding(heap_model::specs::Edits::set_answer, heap_model::specs::Edits::front_set))]
    pub fn set(&mut self, x: T) -> Result<(), HeapFault>
        ensures edit { EditsOn self.old.heap.memory self.new (front_set x (edited self.old)) }
        ensures answer { told refuses_heap result ≡ set_answer (edited self.old) }
    {
        let n = self.heap.len();
        if n == 0 {
            return Err(HeapFault::EmptyEdit);
        }
        self.heap.memory[0] = x;
        if n > 1 {
            self.exposed = true;
        }
        Ok(())
    }

    #[tactic(auto, unfolding(heap_model::specs::Edits::settled, heap_model::specs::Edits::settled_row, heap_model::specs::Edits::refresh_answer))]
    pub fn refresh(&mut self) -> bool
        ensures edit { EditsOn self.old.heap.memory self.new (refreshed T.ordering (edited self.old)) }
        ensures answer { result ≡ refresh_answer T.ordering (edited self.old) }
    {
        if !self.exposed {
            return false;
        }
        self.exposed = false;
        self.heap.settle() != 0
    }

    #[tactic(auto, unfolding(heap_model::specs::Edits::settled, heap_model::specs::Edits::settled_row))]
    pub fn close(self) -> BinaryHeap<'a, T>
        ensures heap { HoldsOn self.entry.heap.memory result (settled T.ordering (edited self.entry)) }
    {
        let mut heap = self.heap;
        if self.exposed {
            heap.settle();
        }
        heap
    }

    // Writes the front into `place`, if there is one, and into `wrote` whether it did: the call
    // has this shape by a rule of the heap, docs/HEAP.md.
    pub fn pop(self, place: &mut T, wrote: &mut bool) -> BinaryHeap<'a, T>
        ensures heap { HoldsOn self.entry.heap.memory result (popped T.ordering (edited self.entry).heap) }
        ensures place { place.new ≡ place_after (edited self.entry).heap.row place.old }
        ensures wrote { wrote.new ≡ mark_after (edited self.entry).heap.row }
    {
        let mut heap = self.heap;
        match heap.pop() {
            Some(x) => {
                *place = x;
                *wrote = true;
            }
            None => *wrote = false,
        }
        heap
    }
}
