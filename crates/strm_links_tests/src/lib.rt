//! Tests of strm_links by its public calls: lists, stacks and chains, beside plain vectors.
#![tactic(auto)]

#[cfg(test)]
mod tests;
