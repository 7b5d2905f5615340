ghost use Rattle.std.specs.Prelude.{◌≡◌, ◌+◌, ◌-◌, ◌^◌, ◌<◌, ◌≤◌, length};
ghost use Rattle.rows.specs.Rebuilds.{highest_bit, rebuilds, rebuilt, sift_ups, tail_rebuilt};

use crate::sift::{sift_down, sift_up};
use elements::element::Element;

// By leading zeros, as the Rust and `highest_bit` have it; `ilog2` would answer the same.
fn log2_fast(x: usize) -> usize
    requires { 0 < x }
    ensures is { result ≡ highest_bit x }
    ensures place { (2 ^ result ≤ x) × (x < 2 ^ (result + 1)) }
{
    (usize::BITS - x.leading_zeros() - 1) as usize
}

// Up to 2,048 elements by the comparisons in the worst case, above that by a factor that was measured.
fn better_to_rebuild(start: usize, len: usize) -> bool
    requires { start < len }
    ensures { result ≡ rebuilds start len }
{
    let tail = len - start;
    if start < tail {
        return true;
    }
    if len <= 2_048 {
        return 2 * len < tail * log2_fast(start);
    }
    (2 * len as u128) < (11 * tail as u128)
}

// Makes a heap of any row.
#[tactic(auto, using(crate::proofs::Turns::downs))]
pub fn rebuild<T: Element>(row: &mut [T])
    ensures { row.new ≡ rebuilt T.ordering row.old }
{
    'downs: for n in (0..row.len() / 2).rev() {
        sift_down(row, n);
    }
}

// By position, which is what a sift is given.
#[tactic(auto, using(crate::proofs::Turns::ups))]
fn sift_up_each<T: Element>(row: &mut [T], start: usize)
    requires { start ≤ length row.old }
    ensures { row.new ≡ sift_ups T.ordering (length row.old - start) row.old start }
{
    'ups: for i in start..row.len() {
        sift_up(row, 0, i);
    }
}

// Makes a heap of a row whose first `start` elements are one, in the cheaper of two ways. The two are
// parameters as in the Rust.
pub fn rebuild_tail<T: Element>(row: &mut [T], start: usize)
    ensures { row.new ≡ tail_rebuilt T.ordering start row.old }
{
    let len = row.len();
    if start >= len {
        return;
    }
    if better_to_rebuild(start, len) {
        rebuild(row);
    } else {
        sift_up_each(row, start);
    }
}
