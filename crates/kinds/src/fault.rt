ghost use Rattle.std.specs.Prelude.{◌≡◌};
ghost use Rattle.kinds.specs.declared.fault.ElementFault.TheVariants.{Clause as OfClause};
ghost use Rattle.kinds.specs.Faults.{refuses_element};

use elements::clause::ClauseFault;
use elements::refusal::{Fault, Refusal};

// Why bytes are no element.
#[derive(Clone, Copy, Debug, PartialEq, Eq)]
pub enum ElementFault {
    Clause(ClauseFault),
    CutShort,
}

// By hand, so that a clause can say which case a `?` makes.
impl From<ClauseFault> for ElementFault {
    ghost from_gives = { λ fault r. r ≡ OfClause fault };

    fn from(fault: ClauseFault) -> ElementFault {
        ElementFault::Clause(fault)
    }
}

impl Fault for ElementFault {
    ghost refuses = { refuses_element };

    fn refusal(&self) -> Refusal {
        match self {
            ElementFault::Clause(fault) => fault.refusal(),
            ElementFault::CutShort => Refusal::by(9),
        }
    }
}
