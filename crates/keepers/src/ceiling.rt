ghost use Rattle.std.specs.Prelude.{◌≡◌};
ghost use Rattle.keepers.specs.Steps.{ceiling_step};

use crate::keeper::Keeper;
use elements::element::{Element, exceeds};

// Says yes to elements that are not above its level.
#[derive(Clone, Copy)]
pub struct Ceiling<T> {
    level: T,
}

impl<T: Element> Ceiling<T> {
    pub fn new(level: T) -> Ceiling<T>
        ensures { result.level ≡ level }
    {
        Ceiling { level }
    }
}

impl<T: Element> Keeper<T> for Ceiling<T> {
    ghost Holding = { T };

    ghost holds = { λ s. s.level };

    ghost step = { ceiling_step T.Element.ordering };

    fn keep(&mut self, x: &T) -> bool {
        !exceeds(x, &self.level)
    }
}
