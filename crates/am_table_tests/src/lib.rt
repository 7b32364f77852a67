//! Worked examples as tables, over both halves and what they are made of. They stand in a crate of
//! their own, so that no library is proved a second time for its tests.
#![tactic(auto)]

#[cfg(test)]
mod tests;
