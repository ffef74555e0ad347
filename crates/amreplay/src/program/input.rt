//! Reading the files, as far as they decide what they hold. `main` opens them; a reader that fails
//! isn't taken for the end of a file.
ghost use Rattle.std.specs.Prelude.{◌≡◌, ℕ, List, IfOk, MatchResult};
ghost use Rattle.amr_events.specs.Answers.{Answers};
ghost use Rattle.amr_events.specs.Scripts.{ScriptIs};
ghost use Rattle.amreplay.specs.Lines.CheckedReader.{HasEnded};
ghost use Rattle.amreplay.specs.Program.Files.{ConfigFileIs};
ghost use Rattle.amreplay.specs.Program.Input.{StandFor, MayHold};

use crate::lines::{CheckedReader, ReadFailed};
use amr_events::{Script, ScriptError, ScriptReader};
use std::alloc::{AllocError, Global};
use std::io::Read;

/// The most bytes of a configuration, 1 MiB.
pub(crate) const LONGEST_CONFIG: usize = 1_048_576;

/// How many bytes are asked for at once.
const CHUNK: usize = 8192;

/// Reads the bytes of a configuration's file: all of them, or so many that it is too long.
///
/// Reading also ends at an error of the reader, and at the read numbered 1,099,511,627,776. Both
/// are errors, so that a file that is cut short is never taken for a whole one.
pub fn read_config_file<R: Read>(
    alloc: Global,
    file: &mut CheckedReader<R>,
) -> Result<Result<Vec<u8>, AllocError>, ReadFailed>
    ensures read { IfOk result (λ read. IfOk read (λ bytes.
        StandFor ConfigFileIs (R.remaining file.old.reader) bytes.items)) }
    ensures ended { MatchResult result
        (λ _. file.new.failed ≡ file.old.failed)
        (λ _. HasEnded file.new.failed file.new.calls) }
{
    let mut bytes = Vec::new(alloc);
    let mut chunk = [0; CHUNK];
    loop {
        let taken = file.read(&mut chunk)?;
        if taken == 0 {
            return Ok(Ok(bytes));
        }
        if let Err(error) = bytes.extend_from_slice(&chunk[..taken]) {
            return Ok(Err(error));
        }
        if bytes.len() > LONGEST_CONFIG {
            return Ok(Ok(bytes));
        }
    }
}

/// Reads a script from its file, or up to its first fault. Whatever follows that, the script has
/// this fault.
///
/// Reading also ends as that of a configuration does.
pub(crate) fn read_script<R: Read>(
    alloc: Global,
    file: &mut CheckedReader<R>,
) -> Result<Result<Script, ScriptError>, ReadFailed>
    ensures read { IfOk result (λ script. (all : List ℕ)
        × MayHold (R.remaining file.old.reader) all × Answers (ScriptIs all) script) }
    ensures ended { MatchResult result
        (λ _. file.new.failed ≡ file.old.failed)
        (λ _. HasEnded file.new.failed file.new.calls) }
{
    let mut script = ScriptReader::new(alloc);
    let mut chunk = [0; CHUNK];
    loop {
        let taken = file.read(&mut chunk)?;
        if taken == 0 {
            return Ok(script.finish());
        }
        if let Err(error) = script.add_bytes(&chunk[..taken]) {
            return Ok(Err(error));
        }
    }
}
