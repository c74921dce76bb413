// Refusals, each with document 01's number. Outcomes 8 to 11 are errors of a list: see crate `outcome`.
#![tactic(auto)]

ghost use Rattle.std.specs.Prelude.{◌≡◌, ℕ};
ghost use Rattle.refusal.specs.Numbers.{number_of, number_or};
ghost use Rattle.refusal.specs.Names.{name_of};

#[derive(Clone, Copy)]
pub enum Refusal {
    AddressInvalid,
    ZeroLengthInvalid,
    FifoExceeded,
    Version,
    Shape,
    Size,
    Room,
    OutOfTurn,
    ClockRange,
    ListRefused,
}

// What a caller that knows no enums is told by a number.
// Kept: each `impl` is a match, since with discriminants no edit could give two refusals one number, as `version_as_shape` must.
pub trait Numbered {
    ghost number_in: { Self → ℕ };

    fn number(self) -> u8
        ensures { result ≡ number_in self };
}

impl Numbered for Refusal {
    ghost number_in = { number_of };

    fn number(self) -> u8 {
        match self {
            Refusal::AddressInvalid => 1,
            Refusal::ZeroLengthInvalid => 2,
            Refusal::FifoExceeded => 3,
            Refusal::Version => 4,
            Refusal::Shape => 5,
            Refusal::Size => 6,
            Refusal::Room => 7,
            Refusal::OutOfTurn => 12,
            Refusal::ClockRange => 13,
            Refusal::ListRefused => 14,
        }
    }
}

// An answer has its own number, and a refusal in its place the refusal's.
impl<T: Numbered> Numbered for Result<T, Refusal> {
    ghost number_in = { number_or T.number_in };

    fn number(self) -> u8 {
        match self {
            Ok(answer) => answer.number(),
            Err(refusal) => refusal.number(),
        }
    }
}

impl Refusal {
    // Its name as text.
    pub fn name(self) -> &'static str
        ensures { result.now ≡ name_of self }
    {
        match self {
            Refusal::AddressInvalid => "AddressInvalid",
            Refusal::ZeroLengthInvalid => "ZeroLengthInvalid",
            Refusal::FifoExceeded => "FifoExceeded",
            Refusal::Version => "Version",
            Refusal::Shape => "Shape",
            Refusal::Size => "Size",
            Refusal::Room => "Room",
            Refusal::OutOfTurn => "OutOfTurn",
            Refusal::ClockRange => "ClockRange",
            Refusal::ListRefused => "ListRefused",
        }
    }
}
