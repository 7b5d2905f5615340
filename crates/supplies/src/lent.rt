ghost use Rattle.std.specs.Prelude.{◌≡◌};

use crate::supply::Supply;

// The elements of a lent list, in order.
#[derive(Drop)]
pub struct Lent<'a, T> {
    list: &'a [T],
}

impl<'a, T: Copy> Lent<'a, T> {
    pub fn new(list: &'a [T]) -> Lent<'a, T>
        ensures { result.list.now ≡ list.now }
    {
        Lent { list }
    }
}

impl<'a, T: Copy> Supply<T> for Lent<'a, T> {
    ghost rest = { λ s. s.list.now };

    fn more(&self) -> bool {
        !self.list.is_empty()
    }

    fn next(&mut self) -> Option<T> {
        let (x, rest) = self.list.split_first()?;
        self.list = rest;
        Some(*x)
    }
}
