//! The trait of a program that answers the lines of a log.
ghost use Rattle.std.specs.Prelude.{◌≡◌, ◌++◌, [], OnOk};
ghost use Rattle.inst_log.specs.Layout.{recovered_lines};
ghost use Rattle.inst_log.specs.Serving.{Replies, SaysOn};

use std::alloc::AllocError;

/// A deterministic state machine from batches of lines to replies.
pub trait Responder {
    /// Relates a state to the function from the lines that follow to their replies. A state that is
    /// related to no function promises nothing.
    ghost says: { Self → Replies → Type 0 };

    /// Appends the replies to the lines of a batch to `out`.
    ///
    /// # Errors
    ///
    /// [`AllocError`] if a reply can't be allocated; state and `out` are unspecified.
    fn answer(&mut self, batch: &[u8], out: &mut Vec<u8>) -> Result<(), AllocError>
        ensures replies { OnOk result ((replies : Replies) → says self.old replies
            → out.new.items ≡ out.old.items ++ replies (recovered_lines batch.now)) }
        ensures on { OnOk result
            (SaysOn (says self.old) (recovered_lines batch.now) (says self.new)) };

    /// No lines have no replies.
    ghost none: { (a : Self) (replies : Replies) → says a replies → replies [] ≡ [] };
}
