//! How large a test is: larger than what the gate makes, where the environment says so.

use std::env;

/// A number of the environment, or else this one.
pub fn number(rt: &HostRuntime, name: &str, otherwise: u32) -> u32 {
    match env::var(rt, name) {
        Ok(text) => text.as_str().parse::<u32>().unwrap_or(otherwise),
        Err(_) => otherwise,
    }
}
