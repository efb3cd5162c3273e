//! Tests of strm_scheduler, service procedures over sides of streams, by its public calls.
#![tactic(auto)]

#[cfg(test)]
mod tests;
