//! Scenes: what their texts are read as, and what every order of their events comes to. The tests
//! stand in a crate of their own, so that no library is proved a second time for them.
#![tactic(auto)]

#[cfg(test)]
mod tests;
