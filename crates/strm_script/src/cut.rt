//! Cuts a text at line ends and at spaces.
ghost use Rattle.std.specs.Prelude.{◌≡◌, ◌<◌, ◌==◌, ◌∷◌, ℕ, IfSome, length, position};
ghost use Rattle.std.specs.List.{slice_split};
ghost use Rattle.std.specs.Option.{option_copied};
ghost use Rattle.strm_script.specs.Cut.{pieces_behind};

use memchr::memchr;

// The bytes before a place, and those after it if there is a place.
fn cut_at(text: &[u8], place: Option<usize>) -> (&[u8], Option<&[u8]>)
    requires { IfSome place (λ at. at < length text.now) }
    ensures { (byte : ℕ) → place ≡ position (λ b. b == byte) text.now
        → slice_split (λ b. b == byte) text.now ≡ result.0.now ∷ pieces_behind byte (option_copied result.1) }
{
    match place {
        Some(at) => (&text[..at], Some(&text[at + 1..])),
        None => (text, None),
    }
}

// The place of the first byte of this value, if any.
fn find(byte: u8, text: &[u8]) -> Option<usize>
    ensures place { result ≡ position (λ b. b == byte) text.now }
    ensures there { IfSome result (λ at. at < length text.now) }
{
    memchr(byte, text)
}

// The place of the first space, if any. In a short word a fast search does not pay.
fn space(text: &[u8]) -> Option<usize>
    ensures place { result ≡ position (λ b. b == 32) text.now }
    ensures there { IfSome result (λ at. at < length text.now) }
{
    text.iter().position(|b| *b == b' ')
}

/// Returns the bytes before the first line end, and those after it if there is one.
pub fn cut_line(text: &[u8]) -> (&[u8], Option<&[u8]>)
    ensures { slice_split (λ b. b == 10) text.now ≡ result.0.now ∷ pieces_behind 10 (option_copied result.1) }
{
    cut_at(text, find(b'\n', text))
}

/// Returns the bytes before the first space, and those after it if there is one.
pub fn cut_word(text: &[u8]) -> (&[u8], Option<&[u8]>)
    ensures { slice_split (λ b. b == 32) text.now ≡ result.0.now ∷ pieces_behind 32 (option_copied result.1) }
{
    cut_at(text, space(text))
}

/// Does what [`cut_word`] does, for a first word that may be long.
pub fn cut_long_word(text: &[u8]) -> (&[u8], Option<&[u8]>)
    ensures { slice_split (λ b. b == 32) text.now ≡ result.0.now ∷ pieces_behind 32 (option_copied result.1) }
{
    cut_at(text, find(b' ', text))
}
