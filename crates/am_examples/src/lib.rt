//! The examples of docs/USING.md: a file for each of its readers. Documents and tests have the same
//! text, and `tools/check_pages` compares them.
#![tactic(auto)]

#[cfg(test)]
mod tests;
