#![tactic(auto)]

// The promise over a heap's whole life. The function does nothing; what it says is its contract.
ghost use Rattle.account.specs.Account.{Promise};

use elements::element::Element;

pub fn promise_holds<T: Element>()
    ensures { Promise T.Element.ordering }
{}
