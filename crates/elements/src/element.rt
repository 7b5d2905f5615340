ghost use Rattle.std.specs.Prelude.{◌≡◌};
ghost use Rattle.std.specs.declared.cmp.Ordering.{Ordering};
ghost use Rattle.std.specs.Ordering.{ordering_then};
ghost use Rattle.elements.specs.Clauses.{by_rank};
ghost use Rattle.elements.specs.Orders.{ElementLaws, by_size, exceeds, below};
ghost use Rattle.std.proofs.Common.{rules};

use crate::clause::Clause;
use std::cmp::{Ordering, Reverse};

// What may lie in a heap: copied values whose `cmp` and `<=` answer by one lawful order.
pub trait Element: Ord + Copy {
    ghost ordering: { Self → Self → Ordering };

    ghost laws: { ElementLaws ordering Self.PartialOrd.partial_cmp Self.Ord.cmp };
}

impl Element for u64 {
    ghost ordering = { by_size };

    ghost laws = { Prim.search rules };
}

impl Element for Clause {
    ghost ordering = { by_rank };

    ghost laws = { Prim.search rules };
}

impl<T: Element> Element for Reverse<T> {
    ghost ordering = { λ x y. T.Element.ordering y.0 x.0 };

    ghost laws = { Prim.search rules };
}

impl<A: Element, B: Element> Element for (A, B) {
    ghost ordering = { λ x y. ordering_then (A.Element.ordering x.0 y.0) (B.Element.ordering x.1 y.1) };

    ghost laws = { Prim.search rules };
}

// `exceeds` and `is_below` are two of std's comparisons, each told by the kind's own order.
pub fn exceeds<T: Element>(x: &T, y: &T) -> bool
    ensures { result ≡ exceeds T.ordering x.now y.now }
{
    x > y
}

pub fn is_below<T: Element>(x: &T, y: &T) -> bool
    ensures { result ≡ below T.ordering x.now y.now }
{
    x < y
}
