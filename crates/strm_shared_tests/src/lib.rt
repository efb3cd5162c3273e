//! Tests of strm_shared, a pool that threads share, by its public calls.
#![tactic(auto)]

#[cfg(test)]
mod tests;
