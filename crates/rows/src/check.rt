ghost use Rattle.std.specs.Prelude.{◌≡◌, ◌<◌, length, MatchOption, slice_index_or};
ghost use Rattle.elements.specs.Orders.{exceeds};
ghost use Rattle.rows.specs.Checks.{FirstOutOfOrder};
ghost use Rattle.rows.specs.Heaps.{Heaped};
ghost use Rattle.rows.specs.Sifts.{parent};

use elements::element::{Element, exceeds};

// Reads any list as a row; none where it is a heap.
pub fn first_out_of_order<T: Element>(list: &[T]) -> Option<usize>
    ensures { MatchOption result (Heaped T.ordering list.now) (λ p. FirstOutOfOrder T.ordering list.now p) }
{
    // A rule of the checker: too few for a parent is tested first.
    if list.len() < 2 {
        return None;
    }
    (1..list.len()).find(|&i| exceeds_parent(list, i))
}

// By reference: of a copied pair both members would be compared, though the first decide.
fn exceeds_parent<T: Element>(list: &[T], i: usize) -> bool
    requires { (0 < i) × (i < length list.now) }
    ensures { (d : T) → result ≡ exceeds T.ordering (slice_index_or list.now i d) (slice_index_or list.now (parent i) d) }
{
    exceeds(&list[i], &list[(i - 1) / 2])
}
