// Tests of the book; there is nothing else here.
#![tactic(auto)]

#[cfg(test)]
mod tests;
