ghost use Rattle.std.specs.Prelude.{◌≡◌};
ghost use Rattle.elements.specs.Refusals.{by, by_with};
ghost use Rattle.elements.specs.declared.refusal.Refusal.{Refusal};

// How a refusal is told outside, where it is a number: that, and what it carries, if anything.
#[derive(Clone, Copy, Debug, PartialEq, Eq)]
pub struct Refusal {
    pub number: u8,
    pub carries: Option<usize>,
}

impl Refusal {
    pub fn by(number: u8) -> Refusal
        ensures { result ≡ by number }
    {
        Refusal {
            number,
            carries: None,
        }
    }

    pub fn by_with(number: u8, carried: usize) -> Refusal
        ensures { result ≡ by_with number carried }
    {
        Refusal {
            number,
            carries: Some(carried),
        }
    }
}

// The reason why a call refused. Each case has one number, and each number one definition.
pub trait Fault {
    ghost refuses: { Self → Refusal };

    fn refusal(&self) -> Refusal
        ensures { result ≡ refuses self.now };
}
