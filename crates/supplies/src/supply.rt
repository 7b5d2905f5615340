ghost use Rattle.std.specs.Prelude.{◌≡◌, List, [], ◌∷◌, length, MatchOption, nat_lt};

// Hands elements out one by one. `rest` is the list of those still to come. Unlike an `Iterator`, it
// says whether any is left without taking it.
pub trait Supply<T> {
    ghost rest: { Self → List T };

    fn more(&self) -> bool
        ensures { result ≡ nat_lt 0 (length (rest self.now)) };

    fn next(&mut self) -> Option<T>
        ensures { MatchOption result ((rest self.old ≡ []) × (rest self.new ≡ [])) (λ x. rest self.old ≡ x ∷ rest self.new) };
}
