//! Texts and what they are read as, over the crates that read and write: names, lines, packets,
//! maps and master maps. They stand in a crate of their own, so that no library is proved a second
//! time for its tests.
#![tactic(auto)]

#[cfg(test)]
mod tests;
