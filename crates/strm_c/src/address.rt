//! The address of bytes, so that a program in C can read or write them where they are.
ghost use Rattle.std.specs.Prelude.{◌≡◌};
ghost use Rattle.std.specs.Ptr.{as_mut_ptr, as_ptr};

// The address of lent bytes, also if there are none. It owns nothing.
pub(crate) fn address_of(bytes: &[u8]) -> *const u8
    ensures { result ≡ as_ptr bytes.entry }
{
    bytes.as_ptr()
}

// The address of bytes that are lent to be changed. They stay as they are.
pub(crate) fn mut_address_of(bytes: &mut [u8]) -> *mut u8
    ensures address { result ≡ as_mut_ptr bytes.entry }
    ensures same { bytes.new ≡ bytes.old }
{
    bytes.as_mut_ptr()
}
