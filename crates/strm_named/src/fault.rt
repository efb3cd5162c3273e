//! Why a call on a named pool was refused: the name was not valid, or the pool refused.
ghost use Rattle.std.specs.Prelude.{◌≡◌};
ghost use Rattle.strm_mblk.specs.Given.{without_token};
ghost use Rattle.strm_named.specs.NamedCalls.{as_named_result};
ghost use Rattle.strm_named.specs.declared.fault.Fault.TheVariants.{Refused};

use strm_pool::{Refusal, Rejected};
use thiserror::Error;

/// Why a call on names was refused. Nothing changed then.
#[derive(Clone, Copy, Debug, PartialEq, Eq, Error)]
pub enum Fault {
    /// A name is not valid, or both names of `linkb` are of one message. This is found before any refusal of the pool.
    #[error("a name is not valid")]
    Invalid,
    /// The pool refused the call.
    #[error("{0}")]
    Refused(Refusal),
}

// The pool's result as a result of the named pool.
pub(crate) fn answered<T>(answer: Result<T, Refusal>) -> Result<T, Fault>
    ensures { result ≡ as_named_result answer }
{
    match answer {
        Ok(value) => Ok(value),
        Err(why) => Err(Fault::Refused(why)),
    }
}

// Why a call rejected a token. The token is forgotten: its message stays held, and keeps its name.
pub(crate) fn refused(rejected: Rejected) -> Fault
    ensures { result ≡ Refused rejected.why }
{
    let Rejected { why, token } = rejected;
    token.forget();
    Fault::Refused(why)
}

// The result of a call that spends a message or rejects its token, as a result of the named pool.
#[inline(always)]
pub(crate) fn spent(put: Result<(), Rejected>) -> Result<(), Fault>
    ensures { result ≡ as_named_result (without_token put) }
{
    match put {
        Ok(()) => Ok(()),
        Err(rejected) => Err(refused(rejected)),
    }
}
