//! Bytes of lines, and the hub in one thread, by steps and by lines.
ghost use Rattle.std.specs.Prelude.{◌≡◌, true, IfOk};
ghost use Rattle.inst_settings.specs.Settings.{is_participant};
ghost use Rattle.inst_command.specs.Ask.{ask_fits};
ghost use Rattle.inst_world.specs.HasRun.{IsOfModel};

use inst_agenda::{Runner, follow_up};
use inst_base::{Fault, Unwritten, find_newline, write_bytes};
use inst_command::{Answer, Ask, Lines, Reply, Step};
use inst_json::{read_command, write_reply};
use inst_lines::{Counts, run_lines};
use inst_settings::Settings;
use inst_world::World;
use std::alloc::{AllocError, Global};
use std::io::{Read, Write};

/// Writes the first line of some bytes, and returns its length.
pub fn bytes<W: Write>(bytes: &[u8], writer: &mut W) -> Result<usize, Unwritten> {
    let end = match find_newline(bytes) {
        Some(newline) => newline + 1,
        None => bytes.len(),
    };
    write_bytes(writer, &bytes[..end])?; // on error a prefix of the line was written
    Ok(end)
}

/// Reads the ask of a line, and writes the line of a refusal.
pub fn json(alloc: Global, settings: &Settings, line: &[u8]) -> Result<(Ask, Vec<u8>), Fault>
    ensures { IfOk result (λ r. ask_fits settings.now r.0 ≡ true) }
{
    // The line is {"at":1000,"cmd":"position","who":"AAAADEFF"}.
    let ask = read_command(alloc, settings, line)?; // participant 0 asks for its position
    let reply = Reply::Refused(Fault::Shortage);
    let text = write_reply(alloc, settings, &reply)?;
    Ok((ask, text)) // {"fault":"Shortage","number":13,"reply":"refused"}
}

/// Runs one step of a hub.
pub fn world(world: &mut World, step: &Step) -> Result<Answer, Fault>
    ensures { IfOk result (λ answer. IsOfModel world.old.board.settings step.now answer) }
{
    if !step.fits(world.settings()) {
        return Err(Fault::BadField);
    }
    let answer = world.step(step)?; // a reply, or whether the step changed a history
    Ok(answer)
}

/// Returns a participant's position in cents and the first ten lines of its statement.
pub fn account(alloc: Global, world: &World, who: u8) -> Result<(u128, Lines), AllocError>
    requires { is_participant world.now.board.settings who ≡ true }
{
    let position = world.position(who); // in constant time
    let lines = world.statement(alloc, who, 0, 10)?; // lines 1 to 10, if there are so many
    Ok((position, lines))
}

/// Answers an ask and does its follow-ups.
pub fn runner(runner: &mut Runner, ask: Ask) -> Result<Answer, AllocError>
    requires { ask_fits runner.old.world.board.settings ask ≡ true }
{
    let at = ask.at;
    let answer = runner.ask(&ask)?;
    follow_up(runner, at)?; // as if each live transfer were followed up
    Ok(answer)
}

/// Answers all lines of a reader.
pub fn run<R: Read, W: Write>(
    alloc: Global,
    settings: &Settings,
    reader: &mut R,
    writer: &mut W,
) -> Result<Counts, Fault> {
    let counts = run_lines(alloc, settings, reader, writer)?; // one reply for each line
    Ok(counts) // how many lines there were, and how many were refused
}
