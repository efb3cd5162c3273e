//! Calls in place, as data: those that change bytes of a held message.
use std::process::Abort;
use strm_pool::{Pool, Refusal, Shape, Token};

// A call on a message. The first number is the place of a block, and in `Overwrite` that of a byte.
#[derive(Clone, Copy, Debug)]
pub(super) enum InPlace<'a> {
    // Writes these bytes over the front of those that `edit` lends.
    Edit(u32, &'a [u8]),
    // Writes these bytes over the front of the room that `fill` lends, and says that they are a number of bytes.
    Fill(u32, &'a [u8], usize),
    // Writes these bytes over the front of the data block that `window` lends.
    Window(u32, &'a [u8]),
    Advance(u32, u32),
    Shape(u32, u32, u32),
    ShapeAll(&'a [Shape]),
    Reserve(u32, u32),
    Prepend(&'a [u8]),
    Overwrite(u32, &'a [u8]),
}

// Writes bytes over the front of others, as far as both reach.
fn write_over(lent: &mut [u8], bytes: &[u8]) {
    let count = lent.len().min(bytes.len());
    lent[..count].copy_from_slice(&bytes[..count]);
}

// The answer of a call that counts no bytes.
fn uncounted(answer: Result<(), Refusal>) -> Result<u32, Refusal> {
    match answer {
        Ok(()) => Ok(0),
        Err(why) => Err(why),
    }
}

// Makes a call on a message, and returns the number of bytes that `fill` counts, or 0.
pub(super) fn made(
    rt: &impl Abort,
    pool: &mut Pool,
    token: &Token,
    call: InPlace<'_>,
) -> Result<u32, Refusal> {
    assert!(rt; pool.has(token));
    match call {
        InPlace::Edit(place, bytes) => {
            uncounted(pool.edit(token, place, |lent| write_over(lent, bytes)))
        }
        InPlace::Fill(place, bytes, said) => pool.fill(token, place, |room| {
            write_over(room, bytes);
            said
        }),
        InPlace::Window(place, bytes) => {
            uncounted(pool.window(token, place, |lent| write_over(lent, bytes)))
        }
        InPlace::Advance(place, count) => uncounted(pool.advance(token, place, count)),
        InPlace::Shape(place, at, len) => uncounted(pool.shape(token, place, at, len)),
        InPlace::ShapeAll(shapes) => uncounted(pool.shape_all(token, shapes)),
        InPlace::Reserve(place, count) => uncounted(pool.reserve(token, place, count)),
        InPlace::Prepend(bytes) => uncounted(pool.prepend(token, bytes)),
        InPlace::Overwrite(at, bytes) => uncounted(pool.overwrite(token, at, bytes)),
    }
}
