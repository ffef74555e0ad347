//! Reading the configuration from the bytes of its file, and the script from its file. Checks, runs
//! and sessions begin with this.
ghost use Rattle.std.specs.Prelude.{◌≡◌, ℕ, List, [], option_map, IfOk};
ghost use Rattle.serde_json.specs.View.{view};
ghost use Rattle.amreplay.specs.Program.Files.{json_of, ReadsAs, FilesAre, Opens};
ghost use Rattle.amreplay.specs.Program.Input.{MayHold};
ghost use Rattle.amreplay.specs.Ends.{EndsScriptBy};
ghost use Rattle.amr_config.specs.declared.read.error.Refusal.TheVariants.{BadConfig};

use crate::fault::Fault;
use crate::lines::{CheckedReader, ReadFailed};
use crate::program::input::{LONGEST_CONFIG, read_script};
use amr_config::Config;
use amr_config::read::{ConfigError, Refusal, load_config};
use amr_events::Script;
use amr_labels::Text;
use amr_replay::Session;
use serde_json::Value;
use std::alloc::{AllocError, Global};
use std::io::Read;

/// Opens a session of a script under a configuration, with the cursor at the start. If both files
/// are faulty, the fault is that of the configuration.
pub fn open_session<R: Read>(
    alloc: Global,
    config: &[u8],
    script: &mut CheckedReader<R>,
) -> Result<Session, Fault>
    ensures opened { (all : List ℕ) × MayHold (R.remaining script.old.reader) all
        × Opens config.now all result }
    ensures ended { EndsScriptBy result script.old.failed script.new.failed script.new.calls }
{
    let (config, script) = read_files(alloc, config, script)?;
    match Session::new(alloc, config, script) {
        Ok(session) => Ok(session),
        Err(_) => Err(Fault::Memory),
    }
}

/// Reads the script and the configuration. If both are faulty, the fault is that of the
/// configuration, unless the script can't be read.
pub(crate) fn read_files<R: Read>(
    alloc: Global,
    config: &[u8],
    script: &mut CheckedReader<R>,
) -> Result<(Config, Script), Fault>
    ensures files { (all : List ℕ) × MayHold (R.remaining script.old.reader) all
        × FilesAre config.now all result }
    ensures ended { EndsScriptBy result script.old.failed script.new.failed script.new.calls }
{
    match read_script(alloc, script) {
        Err(ReadFailed) => Err(Fault::CannotReadScript),
        Ok(script) => Ok((read_config(alloc, config)?, script?)),
    }
}

/// Reads a configuration from the bytes of its file, which must be JSON of at most 1 MiB.
#[tactic(auto, unfolding(crate::specs::Program::Files::ConfigFileIs))]
pub fn read_config(alloc: Global, bytes: &[u8]) -> Result<Config, ConfigError>
    ensures { ReadsAs bytes.now result }
{
    if bytes.len() > LONGEST_CONFIG {
        return Err(ConfigError::Refused(whole_file(alloc)?));
    }
    match json(alloc, bytes)? {
        Some(value) => load_config(alloc, &value),
        None => Err(ConfigError::Refused(whole_file(alloc)?)),
    }
}

/// Returns the refusal of a whole file, whose path is empty.
fn whole_file(alloc: Global) -> Result<Refusal, AllocError>
    ensures { IfOk result (λ refusal. refusal ≡ BadConfig []) }
{
    Ok(Refusal::BadConfig {
        path: Text::from_str(alloc, "")?,
    })
}

/// Returns the JSON value that the bytes spell, or `None` if they aren't JSON in UTF-8.
#[tactic(auto, using(crate::proofs::CommandLinesLemmas::Utf8::is_text, crate::proofs::CommandLinesLemmas::Utf8::is_no_text), unfolding(crate::specs::Program::Files::json_of))]
fn json(alloc: Global, bytes: &[u8]) -> Result<Option<Value>, AllocError>
    ensures { IfOk result (λ found. option_map view found ≡ json_of bytes.now) }
{
    match Value::from_slice(alloc, bytes) {
        Ok(value) => Ok(Some(value)),
        Err(error) => {
            if error.is_memory() {
                Err(AllocError)
            } else {
                Ok(None)
            }
        }
    }
}
