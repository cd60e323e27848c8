// Why a call is refused.
ghost use Rattle.std.specs.Prelude.{◌≡◌};
ghost use Rattle.ledger.specs.Refusals.{number_of};
ghost use Rattle.ledger.specs.Refusals.{by_register};

use register::refusal::RegisterRefusal;

#[derive(Clone, Copy, PartialEq, Eq)]
pub enum Refusal {
    AmountOutOfRange = 10,
    NoSuchAccount = 11,
    NotListed = 12,
    LotsOutOfRange = 13,
    PriceOutOfRange = 14,
    LegsDoNotFit = 15,
    NotStanding = 16,
    LegNotCloseable = 17,
    TooFewLots = 18,
    PositionLimit = 19,
    PastLimit = 20,
    TooLittleBalance = 21,
    NoFreeRow = 22,
    NumbersUsedUp = 23,
    CashLimit = 24,
}

impl Refusal {
    // A cast under its name: `u8::from` would be no plainer.
    pub fn number(self) -> u8
        ensures { result ≡ number_of self }
    {
        self as u8
    }
}

// A register's refusal is the book's.
impl From<RegisterRefusal> for Refusal {
    ghost from_gives = { λ e r. r ≡ by_register e };

    fn from(refusal: RegisterRefusal) -> Refusal {
        match refusal {
            RegisterRefusal::NotStanding => Refusal::NotStanding,
            RegisterRefusal::NoFreeRow => Refusal::NoFreeRow,
            RegisterRefusal::NumbersUsedUp => Refusal::NumbersUsedUp,
        }
    }
}
