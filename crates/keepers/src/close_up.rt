ghost use Rattle.std.specs.Prelude.{◌≡◌, ◌<◌, ◌≤◌, [], ◌++◌, length, drop, MatchOption};
ghost use Rattle.keepers.specs.Keeps.{asked, kept, first_no, holds_through};

use crate::keeper::Keeper;

// How many elements stay, and the position of the first that does not.
#[derive(Clone, Copy)]
pub struct Closed {
    pub count: usize,
    pub first: Option<usize>,
}

// Puts each element of the row to the keeper, in order, and moves those with a yes to its front. By
// index, since it reads one place and writes another.
#[tactic(auto, using(crate::proofs::Closing::closing))]
pub fn close_up<T: Copy, K: Keeper<T>>(row: &mut [T], keeper: &mut K) -> Closed
    ensures count { result.count ≡ length (kept (asked K.step (K.holds keeper.old)) [] row.old) }
    ensures first { MatchOption result.first (result.count ≡ length row.old) (λ p. (p ≡ first_no (asked K.step (K.holds keeper.old)) [] row.old) × (result.count < length row.old)) }
    ensures row { row.new ≡ kept (asked K.step (K.holds keeper.old)) [] row.old ++ drop result.count row.old }
    ensures holds { K.holds keeper.new ≡ holds_through K.step (K.holds keeper.old) row.old }
    ensures within { result.count ≤ length row.old }
{
    let mut count = 0;
    let mut first = None;
    'closing: for i in 0..row.len() {
        let x = row[i];
        if !keeper.keep(&x) {
            first = first.or(Some(count));
            continue 'closing;
        }
        row[count] = x;
        count += 1;
    }
    Closed { count, first }
}
