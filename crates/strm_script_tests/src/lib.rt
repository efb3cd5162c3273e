//! Tests of strm_script, the parser of scripts and the texts of replies and of the report, by its public calls.
#![tactic(auto)]

#[cfg(test)]
mod tests;
