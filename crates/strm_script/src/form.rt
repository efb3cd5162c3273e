//! Arguments: how a word of a line is read as a number, a register, a word or bytes.
ghost use Rattle.std.specs.Prelude.{◌≡◌, ◌*◌, ◌≤◌, length, option_map, unwrap_or};
ghost use Rattle.strm_pool.specs.Limits.{most_octets};
ghost use Rattle.strm_script.specs.Form.{is_digit, begins_well, number_of, negative_of, is_dash, type_named, hex_digit, hex_bytes};

use crate::fault::Kind;
use arrayvec::ArrayVec;
use strm_pool::{Flush, MOST_OCTETS, MsgType, Octets, Reg};

/// What an argument can mean. Each type has one form, so the types that a call takes say the forms of its words.
pub trait Argument: Sized {
    ghost use Rattle.std.specs.Prelude.{ℕ, List, Result};
    ghost use Rattle.strm_script.specs.declared.fault.Kind.{Kind};

    ghost form: { List ℕ → Result Self Kind };

    /// Reads the word, or returns its fault.
    fn read(word: &[u8]) -> Result<Self, Kind>
        ensures { result ≡ form word.now };
}

// The value of each byte as a lower case hexadecimal digit, or 16 if it is not one.
const HEX_DIGITS: [u8; 256] = [
    16, 16, 16, 16, 16, 16, 16, 16, 16, 16, 16, 16, 16, 16, 16, 16, 16, 16, 16, 16, 16, 16, 16, 16,
    16, 16, 16, 16, 16, 16, 16, 16, 16, 16, 16, 16, 16, 16, 16, 16, 16, 16, 16, 16, 16, 16, 16, 16,
    0, 1, 2, 3, 4, 5, 6, 7, 8, 9, 16, 16, 16, 16, 16, 16, 16, 16, 16, 16, 16, 16, 16, 16, 16, 16,
    16, 16, 16, 16, 16, 16, 16, 16, 16, 16, 16, 16, 16, 16, 16, 16, 16, 16, 16, 16, 16, 16, 16, 10,
    11, 12, 13, 14, 15, 16, 16, 16, 16, 16, 16, 16, 16, 16, 16, 16, 16, 16, 16, 16, 16, 16, 16, 16,
    16, 16, 16, 16, 16, 16, 16, 16, 16, 16, 16, 16, 16, 16, 16, 16, 16, 16, 16, 16, 16, 16, 16, 16,
    16, 16, 16, 16, 16, 16, 16, 16, 16, 16, 16, 16, 16, 16, 16, 16, 16, 16, 16, 16, 16, 16, 16, 16,
    16, 16, 16, 16, 16, 16, 16, 16, 16, 16, 16, 16, 16, 16, 16, 16, 16, 16, 16, 16, 16, 16, 16, 16,
    16, 16, 16, 16, 16, 16, 16, 16, 16, 16, 16, 16, 16, 16, 16, 16, 16, 16, 16, 16, 16, 16, 16, 16,
    16, 16, 16, 16, 16, 16, 16, 16, 16, 16, 16, 16, 16, 16, 16, 16, 16, 16, 16, 16, 16, 16, 16, 16,
    16, 16, 16, 16, 16, 16, 16, 16, 16, 16, 16, 16, 16, 16,
];

// Whether a byte is one of `0` to `9`.
fn is_digit(byte: u8) -> bool
    ensures { result ≡ is_digit byte }
{
    (48..=57).contains(&byte)
}

// Whether a word has a first byte, which is `0` only if the word has no other.
fn begins_well(word: &[u8]) -> bool
    ensures { result ≡ begins_well word.now }
{
    match word {
        [] => false,
        [_] => true,
        [first, ..] => *first != b'0',
    }
}

// The number that a word means, at most `most`.
fn number_of(most: u32, word: &[u8]) -> Result<u32, Kind>
    ensures { result ≡ number_of most word.now }
{
    if !begins_well(word) {
        return Err(Kind::Number);
    }
    let mut value: u64 = 0;
    for byte in word {
        if !is_digit(*byte) {
            return Err(Kind::Number);
        }
        value = 10 * value + u64::from(*byte - b'0');
        if value > u64::from(most) {
            return Err(Kind::Number);
        }
    }
    Ok(value as u32)
}

// The number below 0 that `-` and these digits mean.
fn negative_of(digits: &[u8]) -> Result<i32, Kind>
    ensures { result ≡ negative_of digits.now }
{
    if digits == b"0".as_slice() {
        return Err(Kind::Number);
    }
    Ok((-i64::from(number_of(1 << 31, digits)?)) as i32)
}

// Whether a word is `-`.
fn is_dash(word: &[u8]) -> bool
    ensures { result ≡ is_dash word.now }
{
    word == b"-".as_slice()
}

// The type with this name, if any.
fn type_named(word: &[u8]) -> Option<MsgType>
    ensures { result ≡ type_named word.now }
{
    MsgType::all()
        .iter()
        .copied()
        .find(|kind| kind.name().as_bytes() == word)
}

// The value of a lower case hexadecimal digit, or 16 if the byte is not one.
fn hex_digit(byte: u8) -> u8
    ensures { result ≡ unwrap_or (hex_digit byte) 16 }
{
    HEX_DIGITS[usize::from(byte)]
}

// The bytes that pairs of hexadecimal digits mean, if they are all right.
fn hex_bytes(word: &[u8]) -> Option<ArrayVec<u8, MOST_OCTETS>>
    requires { length word.now ≤ 2 * most_octets }
    ensures { option_map (λ bytes. bytes.items) result ≡ hex_bytes word.now }
{
    let mut bytes = ArrayVec::new();
    let mut rest = word;
    while let [high, low, others @ ..] = rest {
        let (high, low) = (hex_digit(*high), hex_digit(*low));
        if high > 15 || low > 15 {
            return None;
        }
        bytes.push(16 * high + low);
        rest = others;
    }
    rest.is_empty().then_some(bytes)
}

/// A number from 0 to 2^32 - 1.
impl Argument for u32 {
    ghost use Rattle.strm_script.specs.Form.{u32_of};

    ghost form = { u32_of };

    fn read(word: &[u8]) -> Result<u32, Kind> {
        number_of(u32::MAX, word)
    }
}

/// The number of a queue or band, from 0 to 255.
impl Argument for u8 {
    ghost use Rattle.strm_script.specs.Form.{u8_of};

    ghost form = { u8_of };

    fn read(word: &[u8]) -> Result<u8, Kind> {
        Ok(number_of(255, word)? as u8)
    }
}

/// A number from -2^31 to 2^31 - 1.
impl Argument for i32 {
    ghost use Rattle.strm_script.specs.Form.{i32_of};

    ghost form = { i32_of };

    fn read(word: &[u8]) -> Result<i32, Kind> {
        match word {
            [b'-', digits @ ..] => negative_of(digits),
            _ => Ok(number_of(i32::MAX as u32, word)? as i32),
        }
    }
}

impl Argument for Reg {
    ghost use Rattle.strm_script.specs.Form.{register_of};

    ghost form = { register_of };

    fn read(word: &[u8]) -> Result<Reg, Kind> {
        match word {
            [letter @ b'a'..=b'z'] => Reg::new(*letter - b'a').ok_or(Kind::Register),
            _ => Err(Kind::Register),
        }
    }
}

/// The type of a data block, by its STREAMS name.
impl Argument for MsgType {
    ghost use Rattle.strm_script.specs.Form.{type_of};

    ghost form = { type_of };

    fn read(word: &[u8]) -> Result<MsgType, Kind> {
        type_named(word).ok_or(Kind::Word)
    }
}

/// Which messages a flush frees: `all` or `data`.
impl Argument for Flush {
    ghost use Rattle.strm_script.specs.Form.{flush_of};

    ghost form = { flush_of };

    fn read(word: &[u8]) -> Result<Flush, Kind> {
        match word {
            b"all" => Ok(Flush::All),
            b"data" => Ok(Flush::Data),
            _ => Err(Kind::Word),
        }
    }
}

/// Whether a queue has a service procedure: `s` or `n`.
impl Argument for bool {
    ghost use Rattle.strm_script.specs.Form.{service_of};

    ghost form = { service_of };

    fn read(word: &[u8]) -> Result<bool, Kind> {
        match word {
            b"s" => Ok(true),
            b"n" => Ok(false),
            _ => Err(Kind::Word),
        }
    }
}

/// The number of the next queue, or `-` for none.
impl Argument for Option<u8> {
    ghost use Rattle.strm_script.specs.Form.{next_of};

    ghost form = { next_of };

    fn read(word: &[u8]) -> Result<Option<u8>, Kind> {
        if is_dash(word) {
            return Ok(None);
        }
        Ok(Some(u8::read(word)?))
    }
}

/// 1 to `MOST_OCTETS` bytes, each as two hexadecimal digits, or `-` for none.
impl Argument for Octets {
    ghost use Rattle.strm_script.specs.Form.{octets_of};

    ghost form = { octets_of };

    fn read(word: &[u8]) -> Result<Octets, Kind> {
        if is_dash(word) {
            return Ok(Octets::of(ArrayVec::new()));
        }
        if word.is_empty() || word.len() > 2 * MOST_OCTETS {
            return Err(Kind::Hex);
        }
        hex_bytes(word).map(Octets::of).ok_or(Kind::Hex)
    }
}
