ghost use Rattle.rows.specs.Laws.{Rearranges, PutsInOrder};

use elements::element::Element;

// Does nothing; what it says, of every element kind, is its contract.
#[tactic(auto, using(crate::proofs::Stands::rearranges, crate::proofs::Stands::puts_in_order))]
pub fn rows_are_lawful<T: Element>()
    ensures bag { Rearranges T.Element.ordering }
    ensures order { PutsInOrder T.Element.ordering }
{}
