ghost use Rattle.std.specs.Prelude.{◌≡◌, take};

use crate::supply::Supply;

// The first few of another supply.
#[derive(Drop)]
pub struct Take<S> {
    supply: S,
    left: usize,
}

impl<S> Take<S> {
    pub fn new(supply: S, count: usize) -> Take<S>
        ensures { (result.supply ≡ supply) × (result.left ≡ count) }
    {
        Take {
            supply,
            left: count,
        }
    }
}

impl<T: Copy, S: Supply<T>> Supply<T> for Take<S> {
    ghost rest = { λ s. take s.left (S.Supply.rest s.supply) };

    fn more(&self) -> bool {
        self.left > 0 && self.supply.more()
    }

    #[tactic(auto, using(crate::proofs::Nexts::take_next))]
    fn next(&mut self) -> Option<T> {
        self.left = self.left.checked_sub(1)?;
        self.supply.next()
    }
}
