//! The command `session`: opens a session over two files and answers commands. The conversation
//! itself is in `commands`.
ghost use Rattle.std.specs.Prelude.{ℕ, List};
ghost use Rattle.amreplay.specs.Program.Input.{MayHold};
ghost use Rattle.amreplay.specs.Ends.{EndsBy, ReadsBy, EndsScriptBy};
ghost use Rattle.amreplay.specs.Program.Sessions.{SessionLeaves};

use crate::commands::converse;
use crate::fault::Fault;
use crate::lines::{CheckedReader, CheckedWriter};
use crate::program::load::open_session;
use std::alloc::Global;
use std::io::{Read, Write};
use std::mem::forget;

/// Reads commands until they end, and answers each over a script and a configuration.
///
/// If one of the files is refused, no command is read and nothing is written. If both are, the fault
/// is that of the configuration. The writer is flushed after each command.
pub fn run_session<S: Read, R: Read, W: Write>(
    alloc: Global,
    config: &[u8],
    script: &mut CheckedReader<S>,
    commands: &mut CheckedReader<R>,
    out: &mut CheckedWriter<W>,
) -> Result<(), Fault>
    ensures left { (all : List ℕ) × MayHold (S.remaining script.old.reader) all
        × SessionLeaves (R.remaining commands.old.reader) (R.remaining commands.new.reader)
        (W.contents out.old.writer) (W.contents out.new.writer) config.now all result }
    ensures script { EndsScriptBy result script.old.failed script.new.failed script.new.calls }
    ensures read { ReadsBy result commands.old.failed commands.new.failed commands.new.calls }
    ensures written { EndsBy result out.old.failed out.new.failed }
{
    let mut session = open_session(alloc, config, script)?;
    let ended = converse(alloc, &mut session, commands, out);
    // The process ends next. To free a large state piece by piece would only take time.
    forget(session);
    ended
}
