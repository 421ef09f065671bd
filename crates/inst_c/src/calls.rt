//! The calls for C. The header `inst.h` says what each call requires and returns.
ghost use Rattle.std.specs.Prelude.{◌≡◌, IfOk, IfErr, None, is_some, if◌then◌else◌};
ghost use Rattle.inst_settings.specs.Lawful.{AreOfAHub};
ghost use Rattle.inst_c.specs.LineHub.{HasFirstOpened};
ghost use Rattle.inst_c.specs.Chosen.{chosen, mode_of, IsOpenRefusal};
ghost use Rattle.inst_c.specs.Calls.{OpensHub, Answers, Copies, CopiesBytes};

use crate::chosen::{Chosen, mode};
use crate::handle::Handle;
use crate::line_hub::LineHub;
use crate::status::{CLOSED, DONE, SHORT, STILL_OPEN};
use inst_base::Fault;
use std::alloc::Global;

/// The length of a reply, and whether it is a refusal.
#[repr(C)]
#[derive(Clone, Copy)]
pub struct Told {
    /// The length of the reply in bytes, with its newline.
    pub length: usize,
    /// `true` if the reply is a refusal.
    pub is_refused: bool,
}

/// Opens a hub for the first time, unless the handle has an open one.
///
/// Returns `DONE`, `STILL_OPEN`, or the number of `Memory` or `BadSettings`; after these two no hub
/// is open.
#[unsafe(no_mangle)]
pub extern "C" fn inst_open(
    alloc: Global,
    handle: &mut Handle,
    participants: &[u8],
    settings: &Chosen,
    is_play: bool,
) -> u32
    ensures { OpensHub (chosen participants.now settings.now) (mode_of is_play) handle.old.held.hub
        handle.new.held.hub result }
{
    if handle.is_open {
        return STILL_OPEN;
    }
    match opened(alloc, participants, settings, is_play) {
        Ok(hub) => {
            handle.put(hub);
            DONE
        }
        Err(fault) => u32::from(fault.number()),
    }
}

/// Returns a hub of these settings.
fn opened(
    alloc: Global,
    participants: &[u8],
    settings: &Chosen,
    is_play: bool,
) -> Result<Box<LineHub>, Fault>
    ensures opened { IfOk result (λ hub.
        HasFirstOpened (mode_of is_play) (chosen participants.now settings.now) hub.value) }
    ensures good { IfOk result (λ _. AreOfAHub (chosen participants.now settings.now)) }
    ensures fault { IfErr result (IsOpenRefusal (chosen participants.now settings.now)) }
{
    let settings = settings.settings(alloc, participants)?;
    let hub = LineHub::open(alloc, mode(is_play), &settings)?;
    Ok(Box::new(alloc, hub)?)
}

/// Answers a line, given without its newline. The hub stores the reply until the next line.
///
/// Returns `DONE`, `CLOSED`, or the number of `Memory`; after that the hub is closed, and `told` is
/// unchanged.
#[unsafe(no_mangle)]
pub extern "C" fn inst_answer(
    alloc: Global,
    handle: &mut Handle,
    line: &[u8],
    told: &mut Told,
) -> u32
    ensures { Answers line.now handle.old.held.hub handle.new.held.hub told.old told.new result }
{
    let Some(mut hub) = handle.take(alloc) else {
        return CLOSED;
    };
    // After an allocation failure the hub is dropped.
    let Ok(is_refused) = hub.answer(line) else {
        return u32::from(Fault::Memory.number());
    };
    *told = Told {
        length: hub.reply.len(),
        is_refused,
    };
    handle.put(hub);
    DONE
}

/// Copies the reply to the last line to the beginning of the buffer.
///
/// Returns `DONE`, `CLOSED`, or `SHORT` if the buffer is too small; nothing was copied then. The
/// hub is unchanged.
#[unsafe(no_mangle)]
pub extern "C" fn inst_reply(alloc: Global, handle: &mut Handle, buffer: &mut [u8]) -> u32
    ensures hub { handle.new.held.hub ≡ handle.old.held.hub }
    ensures buffer { Copies handle.old.held.hub buffer.old buffer.new result }
{
    let Some(hub) = handle.take(alloc) else {
        return CLOSED;
    };
    let status = copy(&hub.reply, buffer);
    handle.put(hub);
    status
}

/// Copies these bytes to the beginning of the buffer, if it is large enough for all of them.
fn copy(bytes: &[u8], buffer: &mut [u8]) -> u32
    ensures { CopiesBytes bytes.now buffer.old buffer.new result }
{
    if buffer.len() < bytes.len() {
        return SHORT;
    }
    buffer[..bytes.len()].copy_from_slice(bytes);
    DONE
}

/// Closes the hub and frees its memory. Returns `DONE`, or `CLOSED` if none was open.
#[unsafe(no_mangle)]
pub extern "C" fn inst_close(alloc: Global, handle: &mut Handle) -> u32
    ensures none { handle.new.held.hub ≡ None }
    ensures status { result ≡ (if is_some handle.old.held.hub then DONE else CLOSED) }
{
    match handle.take(alloc) {
        Some(_) => DONE,
        None => CLOSED,
    }
}
