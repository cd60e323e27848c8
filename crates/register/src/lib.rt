// A register of numbered entries, over rows that its owner hands in.
#![tactic(auto)]

pub mod laws;
pub mod refusal;
pub mod row;
pub mod series;
#[cfg(test)]
mod tests;

ghost use Rattle.std.specs.Prelude.{◌≡◌, true, false, length, MatchOption};
ghost use Rattle.register.specs.Calls.{if_standing, Adds};
ghost use Rattle.register.specs.Places.{NoneBefore, FirstAt, StandsNowhere, StandsAt};
ghost use Rattle.register.specs.Rows.{lookup, changed, removed, some_free, FreeAt};

use refusal::RegisterRefusal;
use row::{FREE, Row};
use series::Series;

// The entry under `number`: that of the earliest row, or that none stands.
pub fn find<T: Copy>(rows: &[Row<T>], number: u32) -> Option<T>
    ensures { result ≡ lookup rows.now number }
{
    let i = row_under(rows, number)?;
    Some(rows[i].entry)
}

// Puts `entry` in the place of the one under `number`.
pub fn change<T: Copy>(rows: &mut [Row<T>], number: u32, entry: T) -> Result<(), RegisterRefusal>
    ensures answered { result ≡ if_standing (lookup rows.old number) }
    ensures leaves { rows.new ≡ changed rows.old number entry }
{
    let Some(i) = row_under(rows, number) else {
        return Err(RegisterRefusal::NotStanding);
    };
    rows[i].entry = entry;
    Ok(())
}

// Frees the row under `number`.
pub fn remove<T: Copy>(rows: &mut [Row<T>], number: u32) -> Result<(), RegisterRefusal>
    ensures answered { result ≡ if_standing (lookup rows.old number) }
    ensures leaves { rows.new ≡ removed rows.old number }
{
    let Some(i) = row_under(rows, number) else {
        return Err(RegisterRefusal::NotStanding);
    };
    rows[i].number = FREE;
    Ok(())
}

// Puts `entry` into a free row, under the next number of `series`.
pub fn add<T: Copy>(
    rows: &mut [Row<T>],
    series: &mut Series,
    entry: T,
) -> Result<u32, RegisterRefusal>
    ensures { Adds rows.old series.old entry result rows.new series.new }
{
    let Some(i) = free_row(rows) else {
        return Err(RegisterRefusal::NoFreeRow);
    };
    let number = series.give()?;
    rows[i] = Row { number, entry };
    Ok(number)
}

// The place of the row that stands under `number`; a free row stands under none.
fn row_under<T: Copy>(rows: &[Row<T>], number: u32) -> Option<usize>
    ensures { MatchOption result (StandsNowhere rows.now number) (StandsAt rows.now number) }
{
    if number == FREE {
        return None;
    }
    first_row(rows, number)
}

// The place of a free row.
fn free_row<T: Copy>(rows: &[Row<T>]) -> Option<usize>
    ensures { MatchOption result (some_free rows.now ≡ false) (λ i. (some_free rows.now ≡ true) × FreeAt rows.now i) }
{
    first_row(rows, FREE)
}

// The place of the earliest row with `number`.
fn first_row<T: Copy>(rows: &[Row<T>], number: u32) -> Option<usize>
    ensures { MatchOption result (NoneBefore rows.now number (length rows.now)) (FirstAt rows.now number) }
{
    rows.iter().position(|row| row.number == number)
}
