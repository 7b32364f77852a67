//! Tests of what threads share, by public calls. They stand in a crate of their own, so that no
//! library is proved a second time for them.
#![tactic(auto)]

#[cfg(test)]
mod tests;
