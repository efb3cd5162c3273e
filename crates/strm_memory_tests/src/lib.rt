//! Tests of each call that allocates, which is made again if memory is refused.
#![tactic(auto)]

#[cfg(test)]
mod tests;
