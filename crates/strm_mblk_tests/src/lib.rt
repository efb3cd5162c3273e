//! Tests of strm_mblk, messages made of message blocks, by its public calls.
#![tactic(auto)]

#[cfg(test)]
mod tests;
