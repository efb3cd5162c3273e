//! Tests of strm_data by its public calls: data blocks, free lists, types and refusals.
#![tactic(auto)]

#[cfg(test)]
mod tests;
