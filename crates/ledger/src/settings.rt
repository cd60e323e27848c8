// The day's settings. They exist only with every field in its range.
ghost use Rattle.std.specs.Prelude.{◌≤◌};
ghost use Rattle.ledger.specs.Scales.{ScaleOf};

use margin::number::UnknownNumber;
use margin::percent::Percent;

// The scale that the raises stand on.
#[derive(Clone, Copy, PartialEq, Eq)]
pub enum BaseScale {
    Standard = 1,
    Listed = 2,
}

impl TryFrom<u8> for BaseScale {
    type Error = UnknownNumber;

    ghost try_from_gives = { ScaleOf };

    fn try_from(number: u8) -> Result<BaseScale, UnknownNumber> {
        match number {
            1 => Ok(BaseScale::Standard),
            2 => Ok(BaseScale::Listed),
            _ => Err(UnknownNumber(number)),
        }
    }
}

// The first raise stands on the base scale, the second on the first. Bit 0 of `permitted` lets leg closes of
// strategy 1, bit 5 those of strategy 6. The opening balance is whole hao (0.0001 yuan).
// `permitted` stays the day file's byte: the book asks one bit of it in one place, and a type for it would be no plainer.
#[derive(Clone, Copy)]
pub struct Settings {
    pub scale: BaseScale,
    pub first_raise: Percent,
    pub second_raise: Percent,
    pub permitted: u8,
    pub first_number: u32,
    pub opening: u64,
    pub day: u16,
    ghost permitted_in_range: { permitted ≤ 63 },
    ghost first_number_in_range: { (1 ≤ first_number) × (first_number ≤ 4294967295) },
    ghost opening_in_range: { opening ≤ 10000000000000000 },
    ghost day_in_range: { (1 ≤ day) × (day ≤ 65535) },
}
