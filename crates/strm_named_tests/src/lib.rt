//! Tests of strm_named, a pool whose messages are known by names, by its public calls.
#![tactic(auto)]

#[cfg(test)]
mod tests;
