// The tables of a book.
use crate::order::{Combination, Order};
use margin::listing::Listing;
use register::row::Row;
use register::series::Series;

// The lots that an account has of a contract; those locked are claimed by a combination or a working close.
#[derive(Clone, Copy)]
pub struct Position {
    pub bought: u32,
    pub written: u32,
    pub locked_bought: u32,
    pub locked_written: u32,
}

// The intraday balance, the margin held, the reserves of working orders and the cash total, in hao.
#[derive(Clone, Copy)]
pub struct Funds {
    pub balance: u64,
    pub held: u64,
    pub reserved: u64,
    pub cash: u64,
}

// Row (account - 1) * 64 + place holds the lots of an account and the contract listed at that place, from 0. Bit 0 of
// `permitted` lets leg closes of strategy 1. Rows are arrays with numbers by rule, so that no call allocates.
#[derive(Drop)]
pub struct Tables {
    pub listing: Listing,
    pub permitted: u8,
    pub positions: [Position; 512],
    pub combinations: [Row<Combination>; 64],
    pub orders: [Row<Order>; 64],
    pub combination_series: Series,
    pub order_series: Series,
    pub funds: Funds,
}
