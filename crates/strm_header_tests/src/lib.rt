//! Tests of strm_header, the check and rewrite of headers in place, by its public calls.
#![tactic(auto)]

#[cfg(test)]
mod tests;
