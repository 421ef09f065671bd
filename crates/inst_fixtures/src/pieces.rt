//! A reader that returns its bytes in pieces and may fail after the last one.
use std::io::{self, ErrorKind, Read};

/// A reader that returns at most `most` bytes in a read. If `fails`, it fails once after the last
/// byte; a caller that tries again finds the end. Its error is the one after which the loops of
/// `std` try again.
#[derive(Drop)]
pub struct Pieces<'a> {
    /// The bytes that are left.
    pub bytes: &'a [u8],
    /// The most bytes of a read.
    pub most: usize,
    /// `true` if it fails after the last byte.
    pub fails: bool,
}

impl Read for Pieces<'_> {
    fn read(&mut self, buf: &mut [u8]) -> io::Result<usize> {
        if self.bytes.is_empty() && self.fails {
            self.fails = false;
            return Err(io::Error::from(ErrorKind::Interrupted));
        }
        let count = self.most.min(buf.len()).min(self.bytes.len());
        buf[..count].copy_from_slice(&self.bytes[..count]);
        self.bytes = &self.bytes[count..];
        Ok(count)
    }
}
