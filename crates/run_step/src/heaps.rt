ghost use Rattle.std.specs.Prelude.{◌≡◌, ℕ};
ghost use Rattle.run_step.specs.Lives.{BothPromised};
ghost use Rattle.run_step.specs.States.{both, begun};

use crate::fault::RecordFault;
use binary_heap::BinaryHeap;
use binary_heap::edit::PeekMut;
use kinds::kind::Kind;
use run_lines::reply::Reply;

// The heap in use: at rest, or in an edit.
#[derive(Drop)]
pub enum State<'a, T> {
    Closed(BinaryHeap<'a, T>),
    Open(PeekMut<'a, T>),
}

// The two heaps of a run.
#[derive(Drop)]
pub struct Heaps<'a, T> {
    pub(crate) state: State<'a, T>,
    pub(crate) other: BinaryHeap<'a, T>,
}

// The heaps after a record, and its answer.
#[derive(Drop)]
pub struct Stepped<'a, T> {
    pub heaps: Heaps<'a, T>,
    pub answer: Result<Reply<T>, RecordFault>,
}

impl<'a, K: Kind> Heaps<'a, K> {
    #[tactic(auto, using(crate::proofs::Living::both_promised))]
    pub fn new(first: &'a mut [K], second: &'a mut [K]) -> Heaps<'a, K>
        ensures heaps { both result ≡ begun first.old second.old }
        ensures promise { (room : ℕ) → BothPromised K.Element.ordering K.codec room }
    {
        Heaps {
            state: State::Closed(BinaryHeap::new(first)),
            other: BinaryHeap::new(second),
        }
    }
}

// The answer stands first, since what makes it may still act on the heap in place. Two functions, so
// that no arm of the step names the state that it leaves.
pub(crate) fn at_rest<'a, T>(
    answer: Result<Reply<T>, RecordFault>,
    heap: BinaryHeap<'a, T>,
    other: BinaryHeap<'a, T>,
) -> Stepped<'a, T>
    ensures { result ≡ record { heaps = record { state = State.Closed heap.entry; other = other.entry }; answer = answer } }
{
    Stepped {
        heaps: Heaps {
            state: State::Closed(heap),
            other,
        },
        answer,
    }
}

pub(crate) fn in_edit<'a, T>(
    answer: Result<Reply<T>, RecordFault>,
    edit: PeekMut<'a, T>,
    other: BinaryHeap<'a, T>,
) -> Stepped<'a, T>
    ensures { result ≡ record { heaps = record { state = State.Open edit.entry; other = other.entry }; answer = answer } }
{
    Stepped {
        heaps: Heaps {
            state: State::Open(edit),
            other,
        },
        answer,
    }
}
