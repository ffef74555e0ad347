//! What stops the program: the line for standard error, and the exit status. Checks, runs and
//! sessions return it, and `main` writes it last. The line takes no memory, so it can also report
//! that memory ran out.
ghost use Rattle.std.specs.Prelude.{◌≡◌};
ghost use Rattle.amreplay.specs.Lines.CheckedWriter.{WritesText, FailsAt};

use crate::lines::{CheckedWriter, WriteFailed, write_parts};
use amr_config::read::{ConfigError, Refusal};
use amr_events::{Fault as ScriptFault, ScriptError};
use itoa::Buffer;
use std::alloc::AllocError;
use std::io::Write;
use thiserror::Error;

/// A reason to stop the program.
#[derive(Debug, Drop, Error)]
pub enum Fault {
    /// The configuration is refused.
    #[error("config: {0}")]
    Config(Refusal),
    /// The script is refused.
    #[error("script: {0}")]
    Script(ScriptFault),
    #[error("cannot read config")]
    CannotReadConfig,
    #[error("cannot read script")]
    CannotReadScript,
    #[error("cannot read commands")]
    CannotReadCommands,
    #[error("cannot write")]
    CannotWrite,
    #[error("out of memory")]
    Memory,
    /// The arguments aren't a command line of the program.
    #[error("usage")]
    Usage,
}

impl From<AllocError> for Fault {
    ghost use Rattle.std.specs.Prelude.{◌≡◌};
    ghost use Rattle.amreplay.specs.declared.fault.Fault.TheVariants.{Memory};

    ghost from_gives = { λ _ fault. fault ≡ Memory };

    fn from(_error: AllocError) -> Fault {
        Fault::Memory
    }
}

impl From<ConfigError> for Fault {
    ghost use Rattle.std.specs.Prelude.{◌≡◌};
    ghost use Rattle.amreplay.specs.Faults.{config_fault};

    ghost from_gives = { λ error fault. fault ≡ config_fault error };

    fn from(error: ConfigError) -> Fault {
        match error {
            ConfigError::Memory => Fault::Memory,
            ConfigError::Refused(refusal) => Fault::Config(refusal),
        }
    }
}

impl From<ScriptError> for Fault {
    ghost use Rattle.std.specs.Prelude.{◌≡◌};
    ghost use Rattle.amreplay.specs.Faults.{script_fault};

    ghost from_gives = { λ error fault. fault ≡ script_fault error };

    fn from(error: ScriptError) -> Fault {
        match error {
            ScriptError::Memory => Fault::Memory,
            ScriptError::Refused(fault) => Fault::Script(fault),
        }
    }
}

impl From<WriteFailed> for Fault {
    ghost use Rattle.std.specs.Prelude.{◌≡◌};
    ghost use Rattle.amreplay.specs.declared.fault.Fault.TheVariants.{CannotWrite};

    ghost from_gives = { λ _ fault. fault ≡ CannotWrite };

    fn from(_error: WriteFailed) -> Fault {
        Fault::CannotWrite
    }
}

/// What the line of a fault has after its name.
#[derive(Clone, Copy, Debug)]
enum Location<'a> {
    Nowhere,
    AtPath(&'a str),
    AtLine(u64),
}

ghost use Rattle.amreplay.specs.Faults.{fault_line, fault_prefix, fault_name, fault_location, config_location as config_location_of, script_location as script_location_of, path_location as location_of_path, line_with_location, location_of as location_seen, status_of as fault_status};

/// Writes the line of a fault. It takes no memory.
pub fn write_fault<W: Write>(fault: &Fault, out: &mut CheckedWriter<W>) -> Result<(), WriteFailed>
    ensures written { WritesText (W.contents out.old.writer) (W.contents out.new.writer)
        result (fault_line fault.now) }
    ensures failed { FailsAt result out.old.failed out.new.failed }
{
    write_line(prefix_of(fault), name_of(fault), &location_of(fault), out)
}

/// Writes the line of a fault from its prefix, its name and its location.
fn write_line<W: Write>(
    prefix: &str,
    name: &str,
    location: &Location,
    out: &mut CheckedWriter<W>,
) -> Result<(), WriteFailed>
    ensures written { WritesText (W.contents out.old.writer) (W.contents out.new.writer)
        result (line_with_location prefix.now name.now (location_seen location.now)) }
    ensures failed { FailsAt result out.old.failed out.new.failed }
{
    match location {
        Location::Nowhere => write_parts(out, &[prefix.as_bytes(), name.as_bytes(), b"\n"]),
        Location::AtPath(path) => write_parts(
            out,
            &[
                prefix.as_bytes(),
                name.as_bytes(),
                b" at ",
                path.as_bytes(),
                b"\n",
            ],
        ),
        Location::AtLine(line) => {
            let mut digits = Buffer::new();
            let digits = digits.format(*line);
            write_parts(
                out,
                &[
                    prefix.as_bytes(),
                    name.as_bytes(),
                    b" at line ",
                    digits.as_bytes(),
                    b"\n",
                ],
            )
        }
    }
}

/// Returns what the line of a fault begins with.
fn prefix_of(fault: &Fault) -> &'static str
    ensures { result.now ≡ fault_prefix fault.now }
{
    match fault {
        Fault::Config(_) => "amreplay: config: ",
        Fault::Script(_) => "amreplay: script: ",
        _ => "amreplay: ",
    }
}

/// Returns the name of a fault, with its number if it has one.
fn name_of(fault: &Fault) -> &'static str
    ensures { result.now ≡ fault_name fault.now }
{
    match fault {
        Fault::Config(refusal) => refusal.cause().printed_name(),
        Fault::Script(fault) => fault.printed_name(),
        Fault::CannotReadConfig => "cannot read config",
        Fault::CannotReadScript => "cannot read script",
        Fault::CannotReadCommands => "cannot read commands",
        Fault::CannotWrite => "cannot write",
        Fault::Memory => "out of memory",
        Fault::Usage => "usage",
    }
}

/// Returns the location of a fault.
fn location_of(fault: &Fault) -> Location<'_>
    ensures { location_seen result ≡ fault_location fault.now }
{
    match fault {
        Fault::Config(refusal) => config_location(refusal),
        Fault::Script(fault) => script_location(*fault),
        _ => Location::Nowhere,
    }
}

/// Returns the location of a refusal: the path in the configuration, if it has one.
fn config_location(refusal: &Refusal) -> Location<'_>
    ensures { location_seen result ≡ config_location_of refusal.now }
{
    match refusal {
        Refusal::BadConfig { path } => path_location(path.as_str()),
        Refusal::Other(_) => Location::Nowhere,
    }
}

/// Returns the location at a path. The empty path, which is the whole configuration, isn't printed.
fn path_location(path: &str) -> Location<'_>
    ensures { location_seen result ≡ location_of_path path.now }
{
    if path.is_empty() {
        Location::Nowhere
    } else {
        Location::AtPath(path)
    }
}

/// Returns the location of a script's fault: its line, if it has one.
fn script_location(fault: ScriptFault) -> Location<'static>
    ensures { location_seen result ≡ script_location_of fault }
{
    match fault {
        ScriptFault::BadLine { line } => Location::AtLine(line),
        ScriptFault::LineTooLong { line } => Location::AtLine(line),
        ScriptFault::TooManyEvents => Location::Nowhere,
    }
}

/// Returns the exit status of a fault: 2 for a usage error, and 1 for any other.
pub fn status_of(fault: &Fault) -> u8
    ensures { result ≡ fault_status fault.now }
{
    match fault {
        Fault::Usage => 2,
        _ => 1,
    }
}
