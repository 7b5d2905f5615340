ghost use Rattle.std.specs.Prelude.{◌≡◌};
ghost use Rattle.heap_model.specs.declared.fault.HeapFault.TheVariants.{Row};
ghost use Rattle.heap_model.specs.Faults.{refuses_row, refuses_heap};

use elements::refusal::{Fault, Refusal};

// Why a row cannot grow.
#[derive(Clone, Copy, Debug, PartialEq, Eq)]
pub enum TryReserveErrorKind {
    CapacityOverflow,
    AllocError { count: usize },
}

// Why a call on a heap was refused.
#[derive(Clone, Copy, Debug, PartialEq, Eq)]
pub enum HeapFault {
    Row(TryReserveErrorKind),
    NotEmpty,
    EmptyEdit,
    ShortList,
}

// By hand, so that a clause can say which case a `?` makes.
impl From<TryReserveErrorKind> for HeapFault {
    ghost from_gives = { λ fault r. r ≡ Row fault };

    fn from(fault: TryReserveErrorKind) -> HeapFault {
        HeapFault::Row(fault)
    }
}

impl Fault for TryReserveErrorKind {
    ghost refuses = { refuses_row };

    fn refusal(&self) -> Refusal {
        match self {
            TryReserveErrorKind::CapacityOverflow => Refusal::by(1),
            TryReserveErrorKind::AllocError { count } => Refusal::by_with(2, *count),
        }
    }
}

impl Fault for HeapFault {
    ghost refuses = { refuses_heap };

    fn refusal(&self) -> Refusal {
        match self {
            HeapFault::Row(fault) => fault.refusal(),
            HeapFault::NotEmpty => Refusal::by(3),
            HeapFault::EmptyEdit => Refusal::by(4),
            HeapFault::ShortList => Refusal::by(5),
        }
    }
}
