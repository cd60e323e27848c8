// The edges of each rule: every strategy's fit, each formula's turning points, the largest margins.
use crate::contract::{Contract, Kind, Right};
use crate::number::UnknownNumber;
use crate::pair::FittedPair;
use crate::percent::Percent;
use crate::scale::listed::ListedScale;
use crate::scale::raised::RaisedScale;
use crate::scale::standard::StandardScale;
use crate::scale::{CombinationScale, LegScale};
use crate::strategy::Strategy;
use std::test::Fail;

// The terms that a margin depends on; prices in hao.
#[derive(Clone, Copy)]
struct Quote(Kind, Right, u32, u32, u32, u32);

// A contract with the quote's close, strike, settlement and unit.
fn contract(quote: Quote, listed_margin: u32) -> Option<Contract> {
    let Quote(kind, right, underlying_close, strike, settlement, unit) = quote;
    let prices = underlying_close.min(strike).min(settlement) >= 1
        && underlying_close.max(strike).max(settlement) <= 10_000_000;
    if !prices || unit < 1 || unit > 1_000_000 {
        return None;
    }
    Some(Contract {
        code: 90_000_001,
        underlying: 900_001,
        expiry: 140,
        right,
        kind,
        unit,
        strike,
        settlement,
        underlying_close,
        listed_margin,
    })
}

fn pair(strategy: Strategy, first: Quote, second: Quote) -> Option<FittedPair> {
    FittedPair::fit(strategy, &contract(first, 300)?, &contract(second, 200)?)
}

#[test]
fn standard_legs(rt: HostRuntime) -> Result<(), Fail> {
    use Kind::*;
    use Right::*;
    let legs = [
        (Quote(Fund, Call, 40_000, 42_000, 500, 10_000), 33_000_000),
        (Quote(Fund, Put, 40_000, 38_000, 300, 10_000), 31_000_000),
        (Quote(Fund, Call, 10_000, 10_000, 50, 1), 1_300),
        (Quote(Fund, Call, 10_000, 10_000, 49, 1), 1_200),
        (Quote(Stock, Call, 10_000, 10_000, 500, 100), 260_000),
        (Quote(Stock, Call, 10_000, 50_000, 1, 10_000), 10_010_000),
        (Quote(Fund, Put, 50_000, 10_000, 1, 10_000), 7_010_000),
        (Quote(Stock, Put, 10_000, 9_500, 200, 10_000), 16_000_000),
        (Quote(Stock, Put, 10_000, 50_000, 45_000, 100), 5_000_000),
        (Quote(Fund, Call, 1, 1, 1, 1), 0),
        (
            Quote(Stock, Call, 10_000_000, 10_000_000, 10_000_000, 1_000_000),
            12_100_000_000_000,
        ),
    ];
    for (quote, margin) in legs {
        let contract = contract(quote, 0).ok_or("a quote is out of range")?;
        assert_eq!(rt; StandardScale.leg(&contract), margin);
    }
    Ok(())
}

#[test]
fn strategies_by_number(rt: HostRuntime) {
    for number in 0..=7 {
        match Strategy::try_from(number) {
            Ok(strategy) => assert_eq!(rt; strategy.number(), number),
            Err(unknown) => {
                assert_eq!(rt; unknown, UnknownNumber(number));
                assert!(rt; number == 0 || number == 7);
            }
        }
    }
}

#[test]
fn fits_as_the_strategy_asks(rt: HostRuntime) {
    use Right::*;
    use Strategy::*;
    let cases = [
        (BullCallSpread, Call, 100, Call, 101, true),
        (BullCallSpread, Call, 100, Call, 100, false),
        (BearCallSpread, Call, 101, Call, 100, true),
        (BearCallSpread, Call, 100, Call, 100, false),
        (BullPutSpread, Put, 100, Put, 101, true),
        (BullPutSpread, Put, 100, Put, 100, false),
        (BearPutSpread, Put, 101, Put, 100, true),
        (BearPutSpread, Put, 101, Call, 100, false),
        (ShortStraddle, Call, 100, Put, 100, true),
        (ShortStraddle, Call, 100, Put, 101, false),
        (ShortStraddle, Put, 100, Call, 100, false),
        (ShortStrangle, Call, 101, Put, 100, true),
        (ShortStrangle, Call, 100, Put, 100, false),
    ];
    for (strategy, first, first_strike, second, second_strike, fits) in cases {
        let first = Quote(Kind::Fund, first, 100, first_strike, 10, 10);
        let second = Quote(Kind::Fund, second, 100, second_strike, 10, 10);
        assert!(rt; pair(strategy, first, second).is_some() == fits);
        let other_unit = Quote(Kind::Fund, Call, 100, 101, 10, 11);
        assert!(rt; pair(strategy, first, other_unit).is_none());
    }
}

// Each pair with its standard margin, its relief, and its margin by the listed legs of 30,000 and 20,000 hao.
#[test]
fn pair_margins(rt: HostRuntime) -> Result<(), Fail> {
    use Kind::Fund;
    use Right::*;
    use Strategy::*;
    let cases = [
        // both spreads that ask nothing
        (
            BullCallSpread,
            Quote(Fund, Call, 10_000, 9_000, 900, 1),
            Quote(Fund, Call, 10_000, 10_000, 50, 1),
            0,
            1_300,
            0,
        ),
        (
            BearPutSpread,
            Quote(Fund, Put, 10_000, 12_000, 900, 1),
            Quote(Fund, Put, 10_000, 10_000, 50, 1),
            0,
            1_300,
            0,
        ),
        // strikes half a fen apart, and just less; strikes so far apart that the pair margin passes the legs' sum
        (
            BullPutSpread,
            Quote(Fund, Put, 10_000, 10_000, 50, 1),
            Quote(Fund, Put, 10_000, 10_050, 50, 1),
            100,
            1_200,
            100,
        ),
        (
            BullPutSpread,
            Quote(Fund, Put, 10_000, 10_000, 50, 1),
            Quote(Fund, Put, 10_000, 10_049, 50, 1),
            0,
            1_300,
            0,
        ),
        (
            BearCallSpread,
            Quote(Fund, Call, 10_000, 50_000, 1, 10_000),
            Quote(Fund, Call, 10_000, 10_000, 100, 10_000),
            400_000_000,
            -387_000_000,
            400_000_000,
        ),
        // the worked strangle and the worked straddle of equal leg margins
        (
            ShortStrangle,
            Quote(Fund, Call, 40_000, 42_000, 500, 10_000),
            Quote(Fund, Put, 40_000, 38_000, 300, 10_000),
            36_000_000,
            28_000_000,
            3_030_000,
        ),
        (
            ShortStraddle,
            Quote(Fund, Call, 10_000, 8_000, 2_000, 10_000),
            Quote(Fund, Put, 10_000, 8_000, 2_640, 10_000),
            58_400_000,
            5_600_000,
            26_430_000,
        ),
        // the leg with the lower margin has the larger settlement
        (
            ShortStrangle,
            Quote(Fund, Call, 10_000, 20_000, 600, 10_000),
            Quote(Fund, Put, 10_000, 15_000, 200, 10_000),
            20_000_000,
            7_000_000,
            2_030_000,
        ),
        (
            ShortStraddle,
            Quote(Fund, Call, 10_000_000, 10_000_000, 10_000_000, 1_000_000),
            Quote(Fund, Put, 10_000_000, 10_000_000, 10_000_000, 1_000_000),
            21_200_000_000_000,
            0,
            10_000_000_030_000,
        ),
    ];
    for (strategy, first, second, margin, relief, listed) in cases {
        let pair = pair(strategy, first, second).ok_or("a pair does not fit")?;
        assert_eq!(rt; StandardScale.pair(&pair), margin);
        assert_eq!(rt; pair.relief(&StandardScale), relief);
        assert_eq!(rt; ListedScale.pair(&pair), listed);
    }
    Ok(())
}

#[test]
fn raised_margins(rt: HostRuntime) -> Result<(), Fail> {
    let half_fen = Quote(Kind::Fund, Right::Call, 10_000, 10_000, 50, 1);
    let contract = contract(half_fen, 0).ok_or("a quote is out of range")?;
    for (value, margin) in [(0, 1_300), (3, 1_300), (4, 1_400), (100, 2_600)] {
        let percent = Percent::new(value).ok_or("a percentage is out of range")?;
        let raised = RaisedScale {
            base: StandardScale,
            percent,
        };
        assert_eq!(rt; raised.leg(&contract), margin);
    }
    assert!(rt; Percent::new(101).is_none());
    Ok(())
}

#[test]
fn largest_margins(rt: HostRuntime) -> Result<(), Fail> {
    let largest = Quote(
        Kind::Stock,
        Right::Call,
        10_000_000,
        10_000_000,
        10_000_000,
        1_000_000,
    );
    let contract = contract(largest, u32::MAX).ok_or("a quote is out of range")?;
    assert_eq!(rt; ListedScale.leg(&contract), 429_496_729_500);
    let percent = Percent::new(100).ok_or("a percentage is out of range")?;
    let doubled = RaisedScale {
        base: StandardScale,
        percent,
    };
    let fourfold = RaisedScale {
        base: doubled,
        percent,
    };
    let eightfold = RaisedScale {
        base: fourfold,
        percent,
    };
    assert_eq!(rt; eightfold.leg(&contract), 96_800_000_000_000);
    assert_eq!(rt;
        RaisedScale {
            base: eightfold,
            percent,
        }
        .leg(&contract),
        100_000_000_000_000
    );
    Ok(())
}
