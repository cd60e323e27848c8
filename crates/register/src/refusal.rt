// Why a register refuses.
ghost use Rattle.std.specs.Prelude.{◌≡◌};
ghost use Rattle.register.specs.Refusals.{number_of};

#[derive(Clone, Copy, PartialEq, Eq, Debug)]
pub enum RegisterRefusal {
    NotStanding = 16,
    NoFreeRow = 22,
    NumbersUsedUp = 23,
}

impl RegisterRefusal {
    // A cast under its name: `u8::from` would be no plainer.
    pub fn number(self) -> u8
        ensures { result ≡ number_of self }
    {
        self as u8
    }
}
