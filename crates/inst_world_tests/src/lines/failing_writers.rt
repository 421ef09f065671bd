//! Writers that fail once, so that a run which tries again or continues is found. Their error is
//! the one after which the loops of `std` try again.
use std::io::{self, ErrorKind, Write};

/// How a writer fails.
#[derive(Clone, Copy, PartialEq, Eq)]
pub(crate) enum Manner {
    Fails,
    TakesNone,
}

/// A writer that takes at most `most` bytes in a write. Once, the write after `room` bytes fails or
/// takes none.
#[derive(Drop)]
pub(crate) struct FullOnce {
    pub(crate) taken: Vec<u8>,
    pub(crate) most: usize,
    pub(crate) room: Option<usize>,
    pub(crate) manner: Manner,
}

impl Write for FullOnce {
    fn write(&mut self, buf: &[u8]) -> io::Result<usize> {
        let mut count = self.most.min(buf.len());
        if let Some(room) = self.room {
            count = count.min(room.saturating_sub(self.taken.len()));
            if count == 0 {
                self.room = None;
                if self.manner == Manner::Fails {
                    return Err(io::Error::from(ErrorKind::Interrupted));
                }
            }
        }
        self.taken.extend_from_slice(&buf[..count])?;
        Ok(count)
    }

    fn flush(&mut self) -> io::Result<()> {
        Ok(())
    }
}

/// A writer that takes everything, and fails in the flush after `before` others.
#[derive(Drop)]
pub(crate) struct UnflushedOnce {
    pub(crate) taken: Vec<u8>,
    pub(crate) before: usize,
    pub(crate) flushes: usize,
}

impl Write for UnflushedOnce {
    fn write(&mut self, buf: &[u8]) -> io::Result<usize> {
        self.taken.extend_from_slice(buf)?;
        Ok(buf.len())
    }

    fn flush(&mut self) -> io::Result<()> {
        let before = self.flushes;
        self.flushes = before.saturating_add(1);
        if before == self.before {
            return Err(io::Error::from(ErrorKind::Interrupted));
        }
        Ok(())
    }
}
