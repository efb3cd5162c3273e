//! What numbers from C mean as queues, bands, types and flushes.
ghost use Rattle.std.specs.Prelude.{◌≡◌, slice_get};
ghost use Rattle.strm_c.specs.InC.{band_of, capped_number, flush_of, head_before, next_in_c, type_of};
ghost use Rattle.strm_c.specs.Opening.{next_of};

use strm_pool::{Flush, MsgType};

// The number of a queue or a class. No pool has number 255, so it means every greater number too.
pub(crate) fn capped_number(number: u32) -> u8
    ensures { result ≡ capped_number number }
{
    u8::try_from(number).unwrap_or(u8::MAX)
}

// The number of a next queue; 2^32 - 1 means none.
pub(crate) fn next_of(number: u32) -> Option<u8>
    ensures { result ≡ next_of number }
{
    if number == u32::MAX {
        None
    } else {
        Some(capped_number(number))
    }
}

// The number of a next queue for C; 2^32 - 1 means none.
pub(crate) fn number_of_next(next: Option<u8>) -> u32
    ensures { result ≡ next_in_c next }
{
    match next {
        Some(queue) => u32::from(queue),
        None => u32::MAX,
    }
}

// The number of the first block of the message before which another is put; 2^32 - 1 means none.
pub(crate) fn head_before(number: u32) -> Option<u32>
    ensures { result ≡ head_before number }
{
    if number == u32::MAX {
        None
    } else {
        Some(number)
    }
}

// The number of a band, 0 to 255.
pub(crate) fn band_of(number: u32) -> Option<u8>
    ensures { result ≡ band_of number }
{
    u8::try_from(number).ok()
}

// The type at a place of a list, counted from 0, if any.
fn item_at(types: &[MsgType], place: u32) -> Option<MsgType>
    ensures { result ≡ slice_get types.now place }
{
    types.get(place as usize).copied()
}

// The type with this number in strm.h, which is its place in `MsgType::all`.
pub(crate) fn type_of(number: u32) -> Option<MsgType>
    ensures { result ≡ type_of number }
{
    item_at(MsgType::all(), number)
}

// Which messages a flush frees: 0 means all, 1 those that carry data.
pub(crate) fn flush_of(number: u32) -> Option<Flush>
    ensures { result ≡ flush_of number }
{
    match number {
        0 => Some(Flush::All),
        1 => Some(Flush::Data),
        _ => None,
    }
}
