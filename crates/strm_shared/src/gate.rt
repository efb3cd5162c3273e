//! Gates: code of a caller that workers run around each call, for example to hold them up in a test.

/// Code that a worker calls on its own thread before and after each line. The arguments are the worker's number and the line's
/// number in the script.
pub trait Gate: Sync {
    /// Called before the worker has the line served.
    fn before(&self, worker: u8, line: u32);

    /// Called after the line was served or refused.
    fn after(&self, worker: u8, line: u32);
}

/// A gate that does nothing.
#[derive(Debug, Drop)]
pub struct OpenGate;

impl Gate for OpenGate {
    fn before(&self, _worker: u8, _line: u32) {}

    fn after(&self, _worker: u8, _line: u32) {}
}
