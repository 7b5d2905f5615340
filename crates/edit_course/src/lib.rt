// The course of an edit: opened, set, closed, and then the heap again. The files in refused/ turn one
// line of it into a call that the build must turn down.
#![tactic(auto)]

ghost use Rattle.std.specs.Prelude.{◌≡◌, length};

use binary_heap::BinaryHeap;

pub fn corrected(memory: &mut [u64], x: u64)
    ensures { length memory.new ≡ length memory.old }
{
    let mut heap = BinaryHeap::new(memory);
    let _ = heap.push(3);
    let mut edit = heap.peek_mut();
    let _ = edit.set(x);
    let mut heap = edit.close();
    let _ = heap.push(2);
}
