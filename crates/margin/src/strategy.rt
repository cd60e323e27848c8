// The six strategies that combine two contracts. A spread buys its first leg and writes its second; a straddle and a strangle write both.
ghost use Rattle.std.specs.Prelude.{◌≡◌, Some};
ghost use Rattle.margin.specs.Strategies.{strategy_number, strategy_of, StrategyOf, first_written};

use crate::number::UnknownNumber;

#[derive(Clone, Copy, PartialEq, Eq)]
pub enum Strategy {
    BullCallSpread = 1,
    BearCallSpread = 2,
    BullPutSpread = 3,
    BearPutSpread = 4,
    ShortStraddle = 5,
    ShortStrangle = 6,
}

impl TryFrom<u8> for Strategy {
    type Error = UnknownNumber;

    ghost try_from_gives = { StrategyOf };

    // The strategy of a number, if one has it.
    fn try_from(number: u8) -> Result<Strategy, UnknownNumber> {
        match number {
            1 => Ok(Strategy::BullCallSpread),
            2 => Ok(Strategy::BearCallSpread),
            3 => Ok(Strategy::BullPutSpread),
            4 => Ok(Strategy::BearPutSpread),
            5 => Ok(Strategy::ShortStraddle),
            6 => Ok(Strategy::ShortStrangle),
            _ => Err(UnknownNumber(number)),
        }
    }
}

impl Strategy {
    // The strategy's number: a cast under its name, since `u8::from` would be no plainer.
    pub fn number(self) -> u8
        ensures is { result ≡ strategy_number self }
        ensures inverse { strategy_of result ≡ Some self }
    {
        self as u8
    }

    // Whether the first leg is written too. The second is written in every strategy.
    pub fn first_written(self) -> bool
        ensures { result ≡ first_written self }
    {
        match self {
            Strategy::ShortStraddle | Strategy::ShortStrangle => true,
            _ => false,
        }
    }
}
