// Opening a book.
ghost use Rattle.margin.specs.Listing.{listed};
ghost use Rattle.margin.specs.Meaning.{Meaning};
ghost use Rattle.ledger.specs.Ledger.{opening_ledger};
ghost use Rattle.ledger.specs.Runs.{Law};
ghost use Rattle.ledger.specs.Keeps.{Opened};
ghost use Rattle.book.specs.Book.{tables_of};

use crate::Book;
use ledger::order::{Combination, Order, OrderKind};
use ledger::settings::Settings;
use ledger::tables::{Funds, Position, Tables};
use margin::listing::Listing;
use margin::strategy::Strategy;
use register::row::{FREE, Row};
use register::series::Series;

const NO_LOTS: Position = Position {
    bought: 0,
    written: 0,
    locked_bought: 0,
    locked_written: 0,
};

// What a free row holds besides its number counts for nothing.
const NO_COMBINATION: Row<Combination> = Row {
    number: FREE,
    entry: Combination {
        account: 0,
        strategy: Strategy::BullCallSpread,
        first: 0,
        second: 0,
        lots: 0,
        engaged: 0,
    },
};

const NO_ORDER: Row<Order> = Row {
    number: FREE,
    entry: Order {
        account: 0,
        kind: OrderKind::SellOpen { contract: 0 },
        lots: 0,
        limit: 0,
    },
};

impl Book {
    // The book of a day, with no lots, no orders and no combinations. Any scale may be its one scale from here on.
    pub fn open(settings: &Settings, listing: &Listing) -> Book
        ensures opened { Opened (listed listing.now) settings.now.permitted settings.now.opening settings.now.first_number (tables_of result) }
        ensures law { (m : Meaning) → Law m (opening_ledger settings.now.opening settings.now.first_number) (tables_of result) }
    {
        let before_first = settings.first_number - 1;
        let funds = Funds {
            balance: settings.opening,
            held: 0,
            reserved: 0,
            cash: settings.opening,
        };
        let tables = Tables {
            listing: *listing,
            permitted: settings.permitted,
            positions: [NO_LOTS; 512],
            combinations: [NO_COMBINATION; 64],
            orders: [NO_ORDER; 64],
            combination_series: Series::after(before_first),
            order_series: Series::after(before_first),
            funds,
        };
        Book { tables }
    }
}
