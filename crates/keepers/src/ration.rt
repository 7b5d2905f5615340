ghost use Rattle.std.specs.Prelude.{◌≡◌, ℕ};
ghost use Rattle.keepers.specs.Steps.{ration_step};

use crate::keeper::Keeper;

// Says yes to the first few that are put to it.
#[derive(Clone, Copy)]
pub struct Ration {
    left: usize,
}

impl Ration {
    pub fn new(count: usize) -> Ration
        ensures { result.left ≡ count }
    {
        Ration { left: count }
    }
}

impl<T: Copy> Keeper<T> for Ration {
    ghost Holding = { ℕ };

    ghost holds = { λ s. s.left };

    ghost step = { ration_step };

    fn keep(&mut self, _x: &T) -> bool {
        // `checked_sub` answers an option, and this a bool.
        if self.left == 0 {
            return false;
        }
        self.left -= 1;
        true
    }
}
