ghost use Rattle.std.specs.Prelude.{◌≡◌};
ghost use Rattle.elements.specs.Clauses.{made, refuses_clause};
ghost use Rattle.elements.specs.Refusals.{told};

use crate::refusal::{Fault, Refusal};

// A discount clause: nobody outside can make one but by `new`, so none has a discount above 1,000.
#[derive(Clone, Copy)]
#[derive_where(PartialEq, Eq, PartialOrd, Ord)]
pub struct Clause {
    rank: u16,
    #[derive_where(skip)]
    number: u32,
    // in per mille
    #[derive_where(skip)]
    discount: u16,
}

#[derive(Clone, Copy, Debug, PartialEq, Eq)]
pub enum ClauseFault {
    DiscountTooHigh,
}

impl Clause {
    pub fn new(rank: u16, number: u32, discount: u16) -> Result<Clause, ClauseFault>
        ensures { told refuses_clause result ≡ made rank number discount }
    {
        if discount > 1_000 {
            return Err(ClauseFault::DiscountTooHigh);
        }
        Ok(Clause {
            rank,
            number,
            discount,
        })
    }

    pub fn rank(&self) -> u16
        ensures { result ≡ self.now.rank }
    {
        self.rank
    }

    pub fn number(&self) -> u32
        ensures { result ≡ self.now.number }
    {
        self.number
    }

    pub fn discount(&self) -> u16
        ensures { result ≡ self.now.discount }
    {
        self.discount
    }
}

impl Fault for ClauseFault {
    ghost refuses = { refuses_clause };

    fn refusal(&self) -> Refusal {
        match self {
            ClauseFault::DiscountTooHigh => Refusal::by(6),
        }
    }
}
