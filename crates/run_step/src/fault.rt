ghost use Rattle.std.specs.Prelude.{◌≡◌};
ghost use Rattle.run_step.specs.declared.fault.RecordFault.TheVariants.{Heap as OfHeap, Element as OfElement};
ghost use Rattle.run_step.specs.Faults.{refuses_record};

use elements::refusal::{Fault, Refusal};
use heap_model::fault::HeapFault;
use kinds::fault::ElementFault;

// Why a record that was read whole was refused.
#[derive(Clone, Copy, Debug, PartialEq, Eq)]
pub enum RecordFault {
    Heap(HeapFault),
    Element(ElementFault),
    EditOpen,
    NoEdit,
}

// By hand, so that a clause can say which case a `?` makes.
impl From<HeapFault> for RecordFault {
    ghost from_gives = { λ fault r. r ≡ OfHeap fault };

    fn from(fault: HeapFault) -> RecordFault {
        RecordFault::Heap(fault)
    }
}

// By hand, so that a clause can say which case a `?` makes.
impl From<ElementFault> for RecordFault {
    ghost from_gives = { λ fault r. r ≡ OfElement fault };

    fn from(fault: ElementFault) -> RecordFault {
        RecordFault::Element(fault)
    }
}

impl Fault for RecordFault {
    ghost refuses = { refuses_record };

    fn refusal(&self) -> Refusal {
        match self {
            RecordFault::Heap(fault) => fault.refusal(),
            RecordFault::Element(fault) => fault.refusal(),
            RecordFault::EditOpen => Refusal::by(10),
            RecordFault::NoEdit => Refusal::by(11),
        }
    }
}
