//! Tests of strm_pool, the pool for one thread, by its public calls.
#![tactic(auto)]

#[cfg(test)]
mod tests;
