//! Tests of strm_queue, queues of messages in priority order, by its public calls.
#![tactic(auto)]

#[cfg(test)]
mod tests;
