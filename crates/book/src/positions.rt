// The lots of one position, by side.
ghost use Rattle.std.specs.Prelude.{◌≡◌, ◌-◌, ◌<◌, ◌≤◌, [], ◌∷◌, nat_lt};
ghost use Rattle.margin.specs.Strategies.{first_written};
ghost use Rattle.ledger.specs.Law.{place as row_place};
ghost use Rattle.book.specs.Checks.{Passes};
ghost use Rattle.book.specs.Sides.{side_of, owned_on, locked_on, free_on, adding, closing, locking, unlocking};

use crate::parts::{Lots, check_free};
use ledger::refusal::Refusal;
use ledger::tables::Position;
use margin::listing::MOST_CONTRACTS;
use margin::strategy::Strategy;

// The side of a position.
#[derive(Clone, Copy)]
pub(crate) enum Side {
    Bought,
    Written,
}

// The side of a strategy's first leg.
pub(crate) fn first_side(strategy: Strategy) -> Side
    ensures { result ≡ side_of (first_written strategy) }
{
    if strategy.first_written() {
        Side::Written
    } else {
        Side::Bought
    }
}

// The row of an account's lots of the contract listed at a place.
pub(crate) fn position_row(account: u8, place: usize) -> usize
    requires account { (1 ≤ account) × (account ≤ 8) }
    requires place { place < 64 }
    ensures is { result ≡ row_place account place }
    ensures inside { result < 512 }
{
    (account as usize - 1) * MOST_CONTRACTS + place
}

// The lots on a side.
pub(crate) fn owned(position: &Position, side: Side) -> u32
    ensures { result ≡ owned_on side position.now }
{
    match side {
        Side::Bought => position.bought,
        Side::Written => position.written,
    }
}

// The locked lots on a side.
fn locked(position: &Position, side: Side) -> u32
    ensures { result ≡ locked_on side position.now }
{
    match side {
        Side::Bought => position.locked_bought,
        Side::Written => position.locked_written,
    }
}

// Whether a side has that many lots that are not locked.
pub(crate) fn check_free_on(position: &Position, side: Side, lots: Lots) -> Result<(), Refusal>
    ensures { Passes ((18, nat_lt (free_on side position.now) lots.number) ∷ []) result }
{
    check_free(owned(position, side), locked(position, side), lots)
}

// Adds lots on a side.
pub(crate) fn add(position: &mut Position, side: Side, lots: Lots)
    requires { owned_on side position.old ≤ 10000 }
    ensures { position.new ≡ adding side lots.number position.old }
{
    match side {
        Side::Bought => position.bought += lots.number,
        Side::Written => position.written += lots.number,
    }
}

// Removes locked lots on a side.
pub(crate) fn close(position: &mut Position, side: Side, lots: Lots)
    ensures { position.new ≡ closing side lots.number position.old }
{
    match side {
        Side::Bought => position.bought = position.bought.saturating_sub(lots.number),
        Side::Written => position.written = position.written.saturating_sub(lots.number),
    }
    unlock(position, side, lots);
}

// Locks lots on a side.
pub(crate) fn lock(position: &mut Position, side: Side, lots: Lots)
    requires { locked_on side position.old ≤ 11000 }
    ensures { position.new ≡ locking side lots.number position.old }
{
    match side {
        Side::Bought => position.locked_bought += lots.number,
        Side::Written => position.locked_written += lots.number,
    }
}

// Unlocks lots on a side.
pub(crate) fn unlock(position: &mut Position, side: Side, lots: Lots)
    ensures { position.new ≡ unlocking side lots.number position.old }
{
    let lots = lots.number;
    match side {
        Side::Bought => position.locked_bought = position.locked_bought.saturating_sub(lots),
        Side::Written => position.locked_written = position.locked_written.saturating_sub(lots),
    }
}
