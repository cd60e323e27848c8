// Days of calls played on a book, each answer held against a figure worked out by hand.
ghost use Rattle.std.specs.Prelude.{◌≤◌};
ghost use Rattle.margin.specs.Meaning.{meaning};
ghost use Rattle.ledger.specs.Runs.{Kept};
ghost use Rattle.book.specs.Book.{tables_of};

use book::Book;
use ledger::call::Call;
use ledger::refusal::Refusal::{self, *};
use ledger::settings::{BaseScale, Settings};
use margin::contract::{Contract, Kind, Right};
use margin::listing::Listing;
use margin::percent::Percent;
use margin::scale::standard::StandardScale;
use margin::scale::{CombinationScale, LegScale};
use std::process::Abort;
use std::test::Fail;

// A fund call with a leg margin of 33,000,000, and a fund put with 31,000,000; their strangle has 36,000,000.
const CALL: u32 = 90_000_001;

const PUT: u32 = 90_000_002;

// A call, the number that it gives (0 where it gives none) or its refusal, and the balance after it.
#[derive(Clone, Copy)]
struct Step(Call, Result<u32, Refusal>, u64);

fn contract(code: u32, right: Right, strike: u32, settlement: u32) -> Contract
    requires code { (10000000 ≤ code) × (code ≤ 99999999) }
    requires strike { (1 ≤ strike) × (strike ≤ 10000000) }
    requires settlement { (1 ≤ settlement) × (settlement ≤ 10000000) }
{
    Contract {
        code,
        underlying: 900_001,
        expiry: 140,
        right,
        kind: Kind::Fund,
        unit: 10_000,
        strike,
        settlement,
        underlying_close: 40_000,
        listed_margin: 0,
    }
}

fn make<S: CombinationScale>(
    rt: &impl Abort,
    book: &mut Book,
    scale: &S,
    step: Step,
) -> Result<(), Fail>
    requires { Kept (meaning S.LegScale.leg_of S.CombinationScale.pair_of scale.now) (tables_of book.old) }
    ensures { Kept (meaning S.LegScale.leg_of S.CombinationScale.pair_of scale.now) (tables_of book.new) }
{
    let Step(call, outcome, balance) = step;
    let answer = book.apply(scale, call).map(|(number, _)| number);
    assert!(rt; answer == outcome);
    assert_eq!(rt; book.balance(), balance);
    Ok(())
}

// Plays the steps on a book with the two contracts.
fn play<S: CombinationScale>(
    rt: &impl Abort,
    scale: &S,
    opening: u64,
    first_number: u32,
    steps: &[Step],
) -> Result<(), Fail> {
    if opening > 10_000_000_000_000_000 || first_number == 0 {
        return Err(Fail::new("no such opening"));
    }
    let settings = Settings {
        scale: BaseScale::Standard,
        first_raise: Percent { value: 0 },
        second_raise: Percent { value: 0 },
        permitted: 63,
        first_number,
        opening,
        day: 100,
    };
    let mut listing = Listing::of(contract(CALL, Right::Call, 42_000, 500));
    let _ = listing.join(contract(PUT, Right::Put, 38_000, 300));
    let mut book = Book::open(&settings, &listing);
    for next in steps {
        make(rt, &mut book, scale, *next)?;
    }
    Ok(())
}

fn deposit(amount: u64) -> Call {
    Call::Deposit { amount }
}

fn withdraw(amount: u64) -> Call {
    Call::Withdraw { amount }
}

fn sell_open(contract: u32, lots: u32, limit: u64) -> Call {
    Call::SellOpen {
        account: 1,
        contract,
        lots,
        limit,
    }
}

fn buy_open(contract: u32, lots: u32, limit: u64) -> Call {
    Call::BuyOpen {
        account: 1,
        contract,
        lots,
        limit,
    }
}

fn buy_close(contract: u32, lots: u32, limit: u64) -> Call {
    Call::BuyClose {
        account: 1,
        contract,
        lots,
        limit,
    }
}

fn sell_close(contract: u32, lots: u32, limit: u64) -> Call {
    Call::SellClose {
        account: 1,
        contract,
        lots,
        limit,
    }
}

fn fill(order: u32, lots: u32, price: u64) -> Call {
    Call::Fill { order, lots, price }
}

fn cancel(order: u32) -> Call {
    Call::Cancel { order }
}

fn combine(strategy: u8, first: u32, second: u32, lots: u32) -> Call {
    Call::Combine {
        account: 1,
        strategy,
        first,
        second,
        lots,
    }
}

fn release(combination: u32, lots: u32) -> Call {
    Call::Release { combination, lots }
}

fn leg_close(combination: u32, leg: u32, lots: u32, limit: u64) -> Call {
    Call::LegClose {
        combination,
        leg,
        lots,
        limit,
    }
}

#[test]
fn cash_moves_within_its_limits(rt: HostRuntime) -> Result<(), Fail> {
    let most = 10_000_000_000_000_000;
    let steps = [
        Step(deposit(0), Err(AmountOutOfRange), 100),
        Step(deposit(most + 1), Err(AmountOutOfRange), 100),
        Step(deposit(most), Ok(0), most + 100),
        Step(withdraw(0), Err(AmountOutOfRange), most + 100),
        Step(withdraw(most + 1), Err(AmountOutOfRange), most + 100),
        Step(withdraw(most), Ok(0), 100),
        Step(withdraw(101), Err(TooLittleBalance), 100),
        Step(withdraw(100), Ok(0), 0),
        Step(withdraw(1), Err(TooLittleBalance), 0),
    ];
    play(&rt, &StandardScale, 100, 1, &steps)
}

#[test]
fn the_cash_total_has_a_limit(rt: HostRuntime) -> Result<(), Fail> {
    let most = 10_000_000_000_000_000;
    let steps = [
        Step(deposit(most), Ok(0), 2 * most),
        Step(deposit(most), Ok(0), 3 * most),
        Step(deposit(most), Ok(0), 4 * most),
        Step(deposit(most), Ok(0), 5 * most),
        Step(deposit(most), Ok(0), 6 * most),
        Step(deposit(most), Ok(0), 7 * most),
        Step(deposit(most), Ok(0), 8 * most),
        Step(deposit(most), Ok(0), 9 * most),
        Step(deposit(most), Ok(0), 10 * most),
        Step(deposit(1), Err(CashLimit), 10 * most),
        Step(buy_open(CALL, 1, 1), Ok(1), 10 * most - 10_000),
        Step(fill(1, 1, 1), Ok(0), 10 * most - 10_000),
        Step(sell_close(CALL, 1, 1), Ok(2), 10 * most - 10_000),
        Step(fill(2, 1, 2), Err(CashLimit), 10 * most - 10_000),
        Step(fill(2, 1, 1), Ok(0), 10 * most),
    ];
    play(&rt, &StandardScale, most, 1, &steps)
}

#[test]
fn orders_are_filled_in_parts(rt: HostRuntime) -> Result<(), Fail> {
    let steps = [
        Step(sell_open(CALL, 5, 500), Ok(1), 835_000_000),
        Step(fill(1, 2, 499), Err(PastLimit), 835_000_000),
        Step(fill(1, 2, 500), Ok(0), 845_000_000),
        Step(fill(1, 4, 500), Err(TooFewLots), 845_000_000),
        Step(fill(1, 3, 501), Ok(0), 860_030_000),
        Step(fill(1, 1, 501), Err(NotStanding), 860_030_000),
        Step(buy_open(PUT, 3, 300), Ok(2), 851_030_000),
        Step(fill(2, 1, 301), Err(PastLimit), 851_030_000),
        Step(fill(2, 1, 300), Ok(0), 851_030_000),
        Step(fill(2, 2, 100), Ok(0), 855_030_000),
        Step(buy_close(CALL, 6, 400), Err(TooFewLots), 855_030_000),
        Step(buy_close(CALL, 5, 400), Ok(3), 835_030_000),
        Step(buy_close(CALL, 1, 400), Err(TooFewLots), 835_030_000),
        Step(fill(3, 2, 400), Ok(0), 901_030_000),
        Step(cancel(3), Ok(0), 913_030_000),
        Step(cancel(3), Err(NotStanding), 913_030_000),
        Step(buy_close(CALL, 3, 400), Ok(4), 901_030_000),
        Step(sell_close(PUT, 4, 200), Err(TooFewLots), 901_030_000),
        Step(sell_close(PUT, 3, 200), Ok(5), 901_030_000),
        Step(fill(5, 3, 199), Err(PastLimit), 901_030_000),
        Step(fill(5, 3, 200), Ok(0), 907_030_000),
    ];
    play(&rt, &StandardScale, 1_000_000_000, 1, &steps)
}

#[test]
fn legs_are_combined_and_released(rt: HostRuntime) -> Result<(), Fail> {
    let steps = [
        Step(sell_open(CALL, 1, 500), Ok(1), 167_000_000),
        Step(fill(1, 1, 500), Ok(0), 172_000_000),
        Step(sell_open(PUT, 1, 300), Ok(2), 141_000_000),
        Step(fill(2, 1, 300), Ok(0), 144_000_000),
        Step(combine(6, PUT, CALL, 1), Err(LegsDoNotFit), 144_000_000),
        Step(combine(7, CALL, PUT, 1), Err(LegsDoNotFit), 144_000_000),
        Step(combine(6, CALL, PUT, 2), Err(TooFewLots), 144_000_000),
        Step(combine(6, CALL, PUT, 1), Ok(1), 172_000_000),
        Step(combine(6, CALL, PUT, 1), Err(TooFewLots), 172_000_000),
        Step(buy_close(CALL, 1, 400), Err(TooFewLots), 172_000_000),
        Step(release(1, 2), Err(TooFewLots), 172_000_000),
        Step(release(1, 1), Ok(0), 144_000_000),
        Step(release(1, 1), Err(NotStanding), 144_000_000),
        Step(combine(6, CALL, PUT, 1), Ok(2), 172_000_000),
        Step(
            leg_close(2, 90_000_003, 1, 400),
            Err(NotListed),
            172_000_000,
        ),
        Step(leg_close(2, PUT, 1, 400), Ok(3), 171_000_000),
        Step(release(2, 1), Err(TooFewLots), 171_000_000),
        Step(cancel(3), Ok(0), 172_000_000),
        Step(withdraw(172_000_000), Ok(0), 0),
        Step(release(2, 1), Err(TooLittleBalance), 0),
    ];
    play(&rt, &StandardScale, 200_000_000, 1, &steps)
}

#[test]
fn the_last_number_is_given_once(rt: HostRuntime) -> Result<(), Fail> {
    let steps = [
        Step(buy_open(CALL, 1, 1), Ok(4_294_967_295), 90_000),
        Step(buy_open(CALL, 1, 1), Err(NumbersUsedUp), 90_000),
        Step(cancel(4_294_967_295), Ok(0), 100_000),
        Step(buy_open(CALL, 1, 1), Err(NumbersUsedUp), 100_000),
    ];
    play(&rt, &StandardScale, 100_000, 4_294_967_295, &steps)
}

#[test]
fn sixty_four_orders_stand(rt: HostRuntime) -> Result<(), Fail> {
    let order = buy_open(CALL, 1, 1);
    let mut steps = [Step(order, Err(NoFreeRow), 360_000); 67];
    for (orders, step) in (1..=64).zip(&mut steps) {
        let balance = 1_000_000_u64.saturating_sub(10_000 * u64::from(orders));
        *step = Step(order, Ok(orders), balance);
    }
    steps[65] = Step(cancel(7), Ok(0), 370_000);
    steps[66] = Step(order, Ok(65), 360_000);
    play(&rt, &StandardScale, 1_000_000, 1, &steps)
}

#[test]
fn ten_thousand_lots_on_a_side(rt: HostRuntime) -> Result<(), Fail> {
    let steps = [
        Step(buy_open(CALL, 1_000, 1), Ok(1), 990_000_000),
        Step(buy_open(CALL, 1_000, 1), Ok(2), 980_000_000),
        Step(fill(1, 1_000, 1), Ok(0), 980_000_000),
        Step(buy_open(CALL, 1_000, 1), Ok(3), 970_000_000),
        Step(buy_open(CALL, 1_000, 1), Ok(4), 960_000_000),
        Step(buy_open(CALL, 1_000, 1), Ok(5), 950_000_000),
        Step(buy_open(CALL, 1_000, 1), Ok(6), 940_000_000),
        Step(buy_open(CALL, 1_000, 1), Ok(7), 930_000_000),
        Step(buy_open(CALL, 1_000, 1), Ok(8), 920_000_000),
        Step(buy_open(CALL, 1_000, 1), Ok(9), 910_000_000),
        Step(buy_open(CALL, 999, 1), Ok(10), 900_010_000),
        Step(buy_open(CALL, 2, 1), Err(PositionLimit), 900_010_000),
        Step(buy_open(CALL, 1, 1), Ok(11), 900_000_000),
        Step(buy_open(CALL, 1, 1), Err(PositionLimit), 900_000_000),
        Step(buy_open(PUT, 1, 1), Ok(12), 899_990_000),
        Step(cancel(11), Ok(0), 900_000_000),
        Step(buy_open(CALL, 1, 1), Ok(13), 899_990_000),
    ];
    play(&rt, &StandardScale, 1_000_000_000, 1, &steps)
}
