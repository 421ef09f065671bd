//! Allocation failures: takes all memory but a little, so that a call that needs more fails. This
//! uses up addresses and hardly any memory. Run such calls in a thread that got its stack before.
use std::alloc::{AllocError, Global};

/// The size of a piece of the reserve in bytes. An allocator doesn't map such a small block by
/// itself and return it to the system, so all pieces are adjacent.
const PIECE: usize = 1 << 16;

/// The number of pieces of the reserve.
const PIECES: usize = 64;

/// The size of the largest block that is tried, in bytes.
const LARGEST: usize = 1 << 40;

/// Below this size in bytes, every size that a request may be rounded to is tried: an allocator may
/// keep a freed block for the next request of the same size.
const SMALL: usize = 1_024;

/// The most blocks that a hoard keeps.
const MOST_BLOCKS: usize = 1 << 17;

/// The most requests for a block.
const MOST_REQUESTS: usize = 1 << 18;

/// A block larger in bytes than those that an allocator keeps for the next request of the same
/// size.
const CUT: usize = 2_048;

/// Allocated blocks that are never written, so that they take addresses and hardly any memory.
#[derive(Drop)]
struct Blocks {
    blocks: Vec<Vec<u8>>,
}

impl Blocks {
    fn new(alloc: Global, most: usize) -> Result<Blocks, AllocError> {
        Ok(Blocks {
            blocks: Vec::with_capacity(alloc, most)?,
        })
    }

    /// Allocates `count` blocks of `size` bytes.
    fn take(&mut self, alloc: Global, count: usize, size: usize) -> Result<(), AllocError> {
        for _ in 0..count {
            self.blocks.push(Vec::with_capacity(alloc, size)?)?;
        }
        Ok(())
    }

    /// Allocates blocks of at most `largest` bytes until a request for one byte fails. Returns
    /// `true` if it did.
    fn take_all(&mut self, alloc: Global, largest: usize) -> bool {
        let mut size = largest;
        for _ in 0..MOST_REQUESTS {
            match Vec::with_capacity(alloc, size.max(1)) {
                Ok(block) => {
                    if self.blocks.push(block).is_err() {
                        return false;
                    }
                }
                Err(_) => {
                    if size <= 1 {
                        return true;
                    }
                    size = if size > SMALL {
                        size / 2
                    } else {
                        size.saturating_sub(16)
                    };
                }
            }
        }
        false
    }
}

/// All memory but a reserve of 4 MiB for a row and its calls. Dropping it frees the memory.
#[derive(Drop)]
pub(crate) struct Hoard {
    alloc: Global,
    /// Kept until the hoard is dropped.
    far: Blocks,
    /// Kept during a call.
    near: Blocks,
}

impl Hoard {
    /// Takes all memory but the reserve, in some thousand requests. Returns `None`, with nothing
    /// taken, if it can't take all.
    pub(crate) fn new(alloc: Global) -> Option<Hoard> {
        let mut far = Blocks::new(alloc, MOST_BLOCKS).ok()?;
        let near = Blocks::new(alloc, 8_192).ok()?;
        let mut room = Blocks::new(alloc, PIECES).ok()?;
        room.take(alloc, PIECES, PIECE).ok()?;
        if !far.take_all(alloc, LARGEST) {
            return None;
        }
        drop(room);
        Some(Hoard { alloc, far, near })
    }

    /// Takes the reserve but for `bytes`, in one piece, and keeps it until `give_back`. Returns
    /// `true` if it could.
    pub(crate) fn leave(&mut self, bytes: usize) -> bool {
        let little: Vec<u8> = match Vec::with_capacity(self.alloc, CUT.saturating_add(bytes)) {
            Ok(little) => little,
            Err(_) => return false,
        };
        let all = self.near.take_all(self.alloc, PIECES * PIECE);
        drop(little);
        let cut = Vec::with_capacity(self.alloc, CUT - 8);
        match cut {
            Ok(block) => all && self.near.blocks.push(block).is_ok(),
            Err(_) => false,
        }
    }

    /// Frees the reserve.
    pub(crate) fn give_back(&mut self) {
        self.near.blocks.clear();
    }
}
