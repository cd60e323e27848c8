// Numbers that stand for the cases of an enum.
ghost use Rattle.margin.specs.Numbers.{RightOf, KindOf};

use crate::contract::{Kind, Right};

// A number that stands for none of the cases.
#[derive(Clone, Copy, Debug, PartialEq, Eq)]
pub struct UnknownNumber(pub u8);

impl TryFrom<u8> for Right {
    type Error = UnknownNumber;

    ghost try_from_gives = { RightOf };

    fn try_from(number: u8) -> Result<Right, UnknownNumber> {
        match number {
            1 => Ok(Right::Call),
            2 => Ok(Right::Put),
            _ => Err(UnknownNumber(number)),
        }
    }
}

impl TryFrom<u8> for Kind {
    type Error = UnknownNumber;

    ghost try_from_gives = { KindOf };

    fn try_from(number: u8) -> Result<Kind, UnknownNumber> {
        match number {
            1 => Ok(Kind::Stock),
            2 => Ok(Kind::Fund),
            _ => Err(UnknownNumber(number)),
        }
    }
}
