// A row is a tree by its positions, so single elements are read and written by index.
ghost use Rattle.std.specs.Prelude.{◌≡◌, ◌/◌, ◌<◌, Bool, length};
ghost use Rattle.rows.specs.Sifts.{greater_child, sift_up, sunk, sift_down, sift_to_leaf, sift_down_to_bottom};
ghost use Rattle.rows.specs.Moves.{Computes};

use elements::element::{Element, exceeds, is_below};

// Takes out the value at `pos`, moves each parent that it exceeds down into the hole, not above
// `start`, and puts it back; answers where. A `loop`, since no range goes from parent to parent. That
// `pos` lies in the row is what the Rust asks of its unsafe sifts, and so it is asked of each here.
#[tactic(auto, using(crate::proofs::Rises::rises))]
pub fn sift_up<T: Element>(row: &mut [T], start: usize, pos: usize) -> usize
    requires { pos < length row.old }
    ensures row { row.new ≡ (sift_up T.ordering row.old start pos).row }
    ensures at { result ≡ (sift_up T.ordering row.old start pos).at }
{
    let value = row[pos];
    let mut hole = pos;
    let at = 'sift: loop {
        if hole <= start {
            break hole;
        }
        let parent = (hole - 1) / 2;
        let above = row[parent];
        if !exceeds(&value, &above) {
            break hole;
        }
        row[hole] = above;
        hole = parent;
    };
    row[at] = value;
    at
}

// The child of `p` that is to move up: the right one, unless the left exceeds it or is the only one.
fn greater_child<T: Element>(row: &[T], p: usize) -> usize
    requires { p < length row.now / 2 }
    ensures child { (d : T) → result ≡ greater_child T.ordering d row.now p }
    ensures within { (p < result) × (result < length row.now) }
{
    let left = 2 * p + 1;
    let right = left + 1;
    if right < row.len() {
        let l = row[left];
        let r = row[right];
        if !exceeds(&l, &r) {
            return right;
        }
    }
    left
}

// Takes out the value at `pos`, moves the greater child up into the hole while `moves` says so of
// the value and that child, and puts the value back; answers where. A `loop`, since no range goes from
// child to child.
fn sink<T: Element, F: Fn(&T, &T) -> bool>(row: &mut [T], pos: usize, moves: F) -> usize
    requires pos { pos < length row.old }
    requires moves { F.IsAlwaysCallable moves }
    ensures sunk { (m : T → T → Bool) → Computes F.Fn moves m → record { row = row.new; at = result } ≡ sunk T.ordering m row.old pos }
    ensures within { result < length row.old }
{
    let value = row[pos];
    let mut hole = pos;
    let at = 'sift: loop {
        if hole >= row.len() / 2 {
            break hole;
        }
        let child = greater_child(row, hole);
        let under = row[child];
        if !moves(&value, &under) {
            break hole;
        }
        row[hole] = under;
        hole = child;
    };
    row[at] = value;
    at
}

// Lets the greater child move up while the value is below it.
pub fn sift_down<T: Element>(row: &mut [T], pos: usize) -> usize
    requires { pos < length row.old }
    ensures row { row.new ≡ (sift_down T.ordering row.old pos).row }
    ensures at { result ≡ (sift_down T.ordering row.old pos).at }
{
    sink(row, pos, |value, child| is_below(value, child))
}

// Lets it move up whatever the value is.
fn sift_to_leaf<T: Element>(row: &mut [T], pos: usize) -> usize
    requires { pos < length row.old }
    ensures row { row.new ≡ (sift_to_leaf T.ordering row.old pos).row }
    ensures at { result ≡ (sift_to_leaf T.ordering row.old pos).at }
    ensures within { result < length row.old }
{
    sink(row, pos, |_, _| true)
}

// Takes the value at `pos` down to a leaf and from there back up, at most to `pos`: fewer
// comparisons than `sift_down` for a value that belongs near a leaf, as a row's last does.
pub fn sift_down_to_bottom<T: Element>(row: &mut [T], pos: usize) -> usize
    requires { pos < length row.old }
    ensures row { row.new ≡ (sift_down_to_bottom T.ordering row.old pos).row }
    ensures at { result ≡ (sift_down_to_bottom T.ordering row.old pos).at }
{
    let leaf = sift_to_leaf(row, pos);
    sift_up(row, pos, leaf)
}
