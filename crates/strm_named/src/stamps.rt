//! The stamps of a named pool, one for each message block, and the calls that give messages new names.
ghost use Rattle.std.specs.Prelude.{◌≡◌, ◌<◌, [], ◌∷◌, length, option_map};
ghost use Rattle.strm_named.specs.NamedCalls.{as_named_result, result_map};
ghost use Rattle.strm_named.specs.Stamps.{HaveStamps, name_in, parted_in, token_answered, tokens_answered, tokens_in, tokens_parted, with_tokens};

use crate::fault::{Fault, refused};
use crate::name::Name;
use strm_pool::{Refusal, Rejected, Token};

// Gives the message of a token a new name, and returns it. The token is forgotten.
#[inline(always)]
pub(crate) fn give(stamps: &mut Vec<u64>, token: Token) -> Name
    requires { token.head < length stamps.old.items }
    ensures stamps { stamps.new.items ≡ with_tokens (token ∷ []) stamps.old.items }
    ensures name { result ≡ name_in stamps.new.items token }
{
    let head = token.head();
    let name = Name {
        pool: token.pool(),
        head,
        stamp: stamps[head as usize].wrapping_add(1),
    };
    token.forget();
    stamps[head as usize] = name.stamp;
    name
}

// Gives the message of a token, if any, a new name, and returns it.
#[inline(always)]
pub(crate) fn give_any(stamps: &mut Vec<u64>, given: Option<Token>) -> Option<Name>
    requires { HaveStamps (tokens_in given) (length stamps.old.items) }
    ensures stamps { stamps.new.items ≡ with_tokens (tokens_in given) stamps.old.items }
    ensures name { result ≡ option_map (name_in stamps.new.items) given }
{
    match given {
        Some(token) => Some(give(stamps, token)),
        None => None,
    }
}

// Gives the message that a call gave a new name, and returns it or the refusal.
#[inline(always)]
pub(crate) fn answer(stamps: &mut Vec<u64>, given: Result<Token, Refusal>) -> Result<Name, Fault>
    requires { HaveStamps (token_answered given) (length stamps.old.items) }
    ensures stamps { stamps.new.items ≡ with_tokens (token_answered given) stamps.old.items }
    ensures name { result ≡ result_map (name_in stamps.new.items) (as_named_result given) }
{
    match given {
        Ok(token) => Ok(give(stamps, token)),
        Err(why) => Err(Fault::Refused(why)),
    }
}

// Gives the message that a call gave, if any, a new name, and returns it or the refusal.
#[inline(always)]
pub(crate) fn answer_any(
    stamps: &mut Vec<u64>,
    given: Result<Option<Token>, Refusal>,
) -> Result<Option<Name>, Fault>
    requires { HaveStamps (tokens_answered given) (length stamps.old.items) }
    ensures stamps { stamps.new.items ≡ with_tokens (tokens_answered given) stamps.old.items }
    ensures name { result ≡ result_map (option_map (name_in stamps.new.items)) (as_named_result given) }
{
    match given {
        Ok(any) => Ok(give_any(stamps, any)),
        Err(why) => Err(Fault::Refused(why)),
    }
}

// Gives both messages into which a message was parted new names, unless its token was rejected.
pub(crate) fn part(
    stamps: &mut Vec<u64>,
    parted: Result<(Token, Option<Token>), Rejected>,
) -> Result<(Name, Option<Name>), Fault>
    requires { HaveStamps (tokens_parted parted) (length stamps.old.items) }
    ensures stamps { stamps.new.items ≡ with_tokens (tokens_parted parted) stamps.old.items }
    ensures names { result ≡ parted_in stamps.old.items stamps.new.items parted }
{
    match parted {
        Ok((token, rest)) => {
            let name = give(stamps, token);
            Ok((name, give_any(stamps, rest)))
        }
        Err(rejected) => Err(refused(rejected)),
    }
}
