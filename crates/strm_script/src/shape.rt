//! Shapes: a line's number of arguments, each with its own form. These functions are inlined, so that what each argument means
//! needs no place in memory.
ghost use Rattle.std.specs.Prelude.{◌≡◌, ◌∷◌, [], IfOk, IfErr};
ghost use Rattle.strm_script.specs.Cut.{words_behind};
ghost use Rattle.strm_script.specs.Shape.{read_none, read_one, read_two, read_three, read_four};

use crate::cut::{cut_long_word, cut_word};
use crate::fault::Kind;
use crate::form::Argument;

// The next word, and the text after it, if any.
#[inline(always)]
fn next(text: Option<&[u8]>) -> Result<(&[u8], Option<&[u8]>), Kind>
    ensures word { IfOk result (λ cut. words_behind text.entry ≡ cut.0.now ∷ words_behind cut.1) }
    ensures none { IfErr result (λ kind. (kind ≡ Kind.Shape) × (words_behind text.entry ≡ [])) }
{
    match text {
        Some(text) => Ok(cut_word(text)),
        None => Err(Kind::Shape),
    }
}

// Does what [`next`] does, for a word that may be long.
#[inline(always)]
fn next_long(text: Option<&[u8]>) -> Result<(&[u8], Option<&[u8]>), Kind>
    ensures word { IfOk result (λ cut. words_behind text.entry ≡ cut.0.now ∷ words_behind cut.1) }
    ensures none { IfErr result (λ kind. (kind ≡ Kind.Shape) × (words_behind text.entry ≡ [])) }
{
    match text {
        Some(text) => Ok(cut_long_word(text)),
        None => Err(Kind::Shape),
    }
}

/// Reads no arguments.
#[inline(always)]
pub fn none(text: Option<&[u8]>) -> Result<(), Kind>
    ensures { result ≡ read_none (words_behind text.entry) }
{
    match text {
        None => Ok(()),
        Some(_) => Err(Kind::Shape),
    }
}

/// Reads one argument.
#[inline(always)]
pub fn one<A: Argument>(text: Option<&[u8]>) -> Result<A, Kind>
    ensures { result ≡ read_one A.form (words_behind text.entry) }
{
    let (first, rest) = next(text)?;
    none(rest)?;
    A::read(first)
}

/// Reads two arguments.
#[inline(always)]
pub fn two<A: Argument + Drop, B: Argument>(text: Option<&[u8]>) -> Result<(A, B), Kind>
    ensures { result ≡ read_two A.form B.form (words_behind text.entry) }
{
    let (first, rest) = next(text)?;
    let (second, rest) = next(rest)?;
    none(rest)?;
    Ok((A::read(first)?, B::read(second)?))
}

/// Reads three arguments.
#[inline(always)]
pub fn three<A: Argument + Drop, B: Argument + Drop, C: Argument>(
    text: Option<&[u8]>,
) -> Result<(A, B, C), Kind>
    ensures { result ≡ read_three A.form B.form C.form (words_behind text.entry) }
{
    let (first, rest) = next(text)?;
    let (second, rest) = next(rest)?;
    let (third, rest) = next_long(rest)?;
    none(rest)?;
    Ok((A::read(first)?, B::read(second)?, C::read(third)?))
}

/// Reads four arguments.
#[inline(always)]
pub fn four<A: Argument + Drop, B: Argument + Drop, C: Argument + Drop, D: Argument>(
    text: Option<&[u8]>,
) -> Result<(A, B, C, D), Kind>
    ensures { result ≡ read_four A.form B.form C.form D.form (words_behind text.entry) }
{
    let (first, rest) = next(text)?;
    let (second, rest) = next(rest)?;
    let (third, rest) = next(rest)?;
    let (fourth, rest) = next(rest)?;
    none(rest)?;
    Ok((
        A::read(first)?,
        B::read(second)?,
        C::read(third)?,
        D::read(fourth)?,
    ))
}
