//! Headers of 20 bytes, as those of Internet Protocol version 4, checked and rewritten in place.
ghost use Rattle.std.specs.Prelude.{◌≡◌, ◌≤◌, IfOk, IsTrue, length};
ghost use Rattle.strm_header.specs.Headers.{Hops, aged_if_right, has_right_checksum, sum_of_words, verdict_on};
ghost use Rattle.strm_mblk.specs.Arena.{has};

use strm_pool::{Pool, Token};
use thiserror::Error;

/// Why a message does not go on. If several reasons hold, the first one in this order is reported.
#[derive(Clone, Copy, Debug, Drop, PartialEq, Eq, Error)]
pub enum HeaderFault {
    /// There are fewer than 20 bytes.
    #[error("there are fewer bytes than a header has")]
    TooShort,
    /// Byte 0 is not 0x45, which means version 4 and a header of 20 bytes.
    #[error("the header is not of version 4, or not of 20 bytes")]
    WrongForm,
    /// The sum of the header's ten words is not a multiple of 65,535.
    #[error("the header does not have the checksum that it says")]
    WrongChecksum,
    /// Byte 8, the time to live, is 0 or 1.
    #[error("the message may make no further hop")]
    Expired,
}

/// What `hop` did with a message.
#[must_use]
#[derive(Debug)]
pub enum Outcome {
    /// The header was right and is rewritten: the message goes on.
    GoesOn(Token),
    /// The header was wrong, for this reason, and the message is freed.
    Dropped(HeaderFault),
    /// Another message block refers to the first data block, so that it may not be changed. Nothing has changed. A copy
    /// of the message (`copymsg`) can make the hop.
    Refused(Token),
}

// The sum of the words of a header. The first byte of a word counts 256 times.
fn sum_of_words(header: &[u8]) -> u32
    requires { length header.now ≤ 20 }
    ensures { result ≡ sum_of_words header.now }
{
    let mut sum = 0;
    let mut rest = header;
    while let [high, low, behind @ ..] = rest {
        sum += u32::from(u16::from_be_bytes([*high, *low]));
        rest = behind;
    }
    sum
}

/// Checks the header at the front of `bytes`. If it is right, takes one from its time to live (byte 8) and corrects its
/// checksum (bytes 10 and 11). Otherwise says what is wrong, and changes nothing.
///
/// The checksum is corrected, not computed anew (RFC 1624): the word at byte 8 falls by 256, so the checksum rises by 256
/// in one's complement, that is modulo 65,535.
pub fn age_header(bytes: &mut [u8]) -> Result<(), HeaderFault>
    ensures verdict { result ≡ verdict_on bytes.old }
    ensures left { bytes.new ≡ aged_if_right bytes.old }
    ensures checksum { IfOk result (λ _. IsTrue (has_right_checksum bytes.new)) }
{
    if bytes.len() < 20 {
        return Err(HeaderFault::TooShort);
    }
    if bytes[0] != 0x45 {
        return Err(HeaderFault::WrongForm);
    }
    if sum_of_words(&bytes[..20]) % 65_535 != 0 {
        return Err(HeaderFault::WrongChecksum);
    }
    if bytes[8] <= 1 {
        return Err(HeaderFault::Expired);
    }
    let checksum = u16::from_be_bytes([bytes[10], bytes[11]]);
    let raised = (u32::from(checksum) + 256) % 65_535;
    bytes[8] -= 1;
    bytes[10] = (raised / 256) as u8;
    bytes[11] = (raised % 256) as u8;
    Ok(())
}

/// Has a message make one hop, as a router does: checks the header in its first block, and rewrites it in place or frees
/// the message.
///
/// Looks the block up once, and copies no bytes. If another message block refers to the data block, returns `Refused`
/// without a look at the header. All other messages stay unchanged. It asks neither for the type of the message nor for its
/// second block: a header that goes on there is too short, unless the caller pulls 20 bytes up first (`pullupmsg`).
pub fn hop(pool: &mut Pool, token: Token) -> Outcome
    requires { IsTrue (has pool.old.arena token) }
    ensures { Hops token pool.old pool.new result }
{
    pool.lawful();
    match pool.edit(&token, 0, age_header) {
        Ok(Ok(())) => Outcome::GoesOn(token),
        Ok(Err(why)) => {
            pool.freemsg(token);
            Outcome::Dropped(why)
        }
        Err(_) => Outcome::Refused(token),
    }
}
