//! A refusal, with the token that the call returns.
use crate::token::Token;
use strm_data::Refusal;

/// Why a call refused a message, and the message's token, which it returns.
#[must_use]
#[derive(Debug)]
pub struct Rejected {
    /// Why the call was refused.
    pub why: Refusal,
    /// The token that the call got.
    pub token: Token,
}
