// The numbers of a register's entries, each given once: from 1 to 4,294,967,295, rising by 1.
ghost use Rattle.std.specs.Prelude.{◌≡◌, ◌+◌, ◌≤◌};
ghost use Rattle.register.specs.Numbers.{last_number, next_of, Gives};

use crate::refusal::RegisterRefusal;

// Holds the number given last, or that before the first: the next is one more, so from 1 to 2^32.
#[derive(Drop)]
pub struct Series {
    given: u32,
}

impl Series {
    // The series whose next number is the one after `given`.
    pub fn after(given: u32) -> Series
        ensures { next_of result ≡ given + 1 }
    {
        Series { given }
    }

    // The number to be given next; past 4,294,967,295 none is.
    pub fn next(&self) -> u64
        ensures is { result ≡ next_of self.now }
        ensures within { (1 ≤ result) × (result ≤ last_number + 1) }
    {
        u64::from(self.given) + 1
    }

    // Gives the next number.
    pub(crate) fn give(&mut self) -> Result<u32, RegisterRefusal>
        ensures { Gives self.old result self.new }
    {
        let Some(number) = self.given.checked_add(1) else {
            return Err(RegisterRefusal::NumbersUsedUp);
        };
        self.given = number;
        Ok(number)
    }
}
