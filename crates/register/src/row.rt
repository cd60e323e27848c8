// A row of a register: an entry under its number.

// The number of a free row. The rows are their owner's, and a row numbered 0 is free by rule: so none is an Option.
pub const FREE: u32 = 0;

#[derive(Clone, Copy)]
pub struct Row<T> {
    pub number: u32,
    pub entry: T,
}
