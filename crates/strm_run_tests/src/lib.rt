//! Tests of strm_run, runs of scripts between a reader and a writer, by its public calls.
#![tactic(auto)]

#[cfg(test)]
mod tests;
