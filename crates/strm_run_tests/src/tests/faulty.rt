//! A reader and a writer for tests, which take small steps and fail at a chosen byte.
use std::alloc::Global;
use std::io;
use std::io::{Read, Write};

/// A reader that gives its text one byte at a time, and fails after `cut` bytes.
#[derive(Drop)]
pub struct Slow<'a> {
    text: &'a [u8],
    pub given: usize,
    cut: Option<usize>,
}

impl Read for Slow<'_> {
    fn read(&mut self, buf: &mut [u8]) -> io::Result<usize> {
        if self.cut == Some(self.given) {
            return Err(io::Error::from(io::ErrorKind::BrokenPipe));
        }
        match (self.text.get(self.given), buf.first_mut()) {
            (Some(byte), Some(place)) => {
                *place = *byte;
                self.given = self.given.saturating_add(1);
                Ok(1)
            }
            _ => Ok(0),
        }
    }
}

/// Makes a reader of this text.
pub fn slow_reader(text: &[u8], cut: Option<usize>) -> Slow<'_> {
    Slow {
        text,
        given: 0,
        cut,
    }
}

/// A writer that takes at most `most` bytes at a time, and fails once it has `cut` bytes, in a flush too. It counts its
/// failures.
#[derive(Drop)]
pub struct Choppy {
    pub got: Vec<u8>,
    pub faults: u32,
    most: usize,
    cut: Option<usize>,
}

impl Choppy {
    // Fails if it must.
    fn check(&mut self) -> io::Result<()> {
        if self.cut == Some(self.got.len()) {
            self.faults = self.faults.saturating_add(1);
            return Err(io::Error::from(io::ErrorKind::BrokenPipe));
        }
        Ok(())
    }
}

impl Write for Choppy {
    fn write(&mut self, buf: &[u8]) -> io::Result<usize> {
        self.check()?;
        let count = buf.len().min(self.most);
        self.got.extend_from_slice(&buf[..count])?;
        Ok(count)
    }

    fn flush(&mut self) -> io::Result<()> {
        self.check()
    }
}

/// Makes a writer that has no bytes yet.
pub fn choppy_writer(alloc: Global, most: usize, cut: Option<usize>) -> Choppy {
    Choppy {
        got: Vec::new(alloc),
        faults: 0,
        most,
        cut,
    }
}
