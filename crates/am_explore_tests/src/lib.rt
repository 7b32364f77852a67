//! Tests of `am_explore`, by its public calls: whole scenes, with how many orders each has.
#![tactic(auto)]

#[cfg(test)]
mod tests;
