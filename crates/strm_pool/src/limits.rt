//! The limits of this crate: registers, workers, wishes, ids, and bytes in a call or reply.

/// The number of registers, a to z.
pub const MOST_REGISTERS: usize = 26;

/// The greatest number of workers of a script, and so of desks at a shared pool.
pub const MOST_WORKERS: usize = 16;

/// The greatest number of `bufcall` wishes at one time.
pub const MOST_WISHES: usize = 64;

/// The id of the last wish that can be recorded.
pub const LAST_ID: u32 = 4_294_967_295;

/// The greatest number of bytes in a call or a reply.
pub const MOST_OCTETS: usize = 64;
