// A theorem about the definitions. The function does nothing; what it says is its contract.
ghost use Rattle.heap_model.specs.Examples.{Examples};

pub fn examples_hold()
    ensures { Examples }
{}
