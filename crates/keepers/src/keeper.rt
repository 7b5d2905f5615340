ghost use Rattle.std.specs.Prelude.{◌≡◌};
ghost use Rattle.keepers.specs.Steps.{Said};

// Says yes or no to the elements put to it: `step` goes from what it holds and an element to its
// answer and what it holds next. A closure's state could not be told after a call.
pub trait Keeper<T> {
    ghost Holding: { Type 0 };

    ghost holds: { Self → Holding };

    ghost step: { Holding → T → Said Holding };

    fn keep(&mut self, x: &T) -> bool
        ensures says { result ≡ (step (holds self.old) x.now).yes }
        ensures next { holds self.new ≡ (step (holds self.old) x.now).next };
}
