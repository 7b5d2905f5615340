ghost use Rattle.std.specs.Prelude.{◌≡◌, replicate};

use crate::supply::Supply;

// One value, a number of times.
#[derive(Drop)]
pub struct Repeat<T> {
    value: T,
    left: usize,
}

impl<T: Copy> Repeat<T> {
    pub fn new(value: T, count: usize) -> Repeat<T>
        ensures { (result.value ≡ value) × (result.left ≡ count) }
    {
        Repeat { value, left: count }
    }
}

impl<T: Copy> Supply<T> for Repeat<T> {
    ghost rest = { λ s. replicate s.left s.value };

    fn more(&self) -> bool {
        self.left > 0
    }

    fn next(&mut self) -> Option<T> {
        self.left = self.left.checked_sub(1)?;
        Some(self.value)
    }
}
