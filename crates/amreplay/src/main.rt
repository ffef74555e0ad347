//! The program `amreplay`: it replays incidents of Prometheus Alertmanager. Here are only its
//! arguments and its files; all else is in the modules, and `program` calls the others.
#![tactic(auto)]

ghost use Rattle.std.specs.Prelude.{◌≡◌};

mod command_lines;
mod commands;
mod fault;
mod lines;
mod program;

use crate::fault::{Fault, status_of, write_fault};
use crate::lines::{CheckedReader, CheckedWriter};
use crate::program::{Form, check_config, command_of, read_config_file, run_script, run_session};
use std::alloc::AllocError;
use std::io::{BufWriter, ErrorKind};
use std::process::ExitCode;
use std::rt::{Env, Files};
use std::{env, fs};

/// How many bytes a run writes at once. A session writes each answer when it has it.
const WRITTEN_AT_ONCE: usize = 1 << 16;

fn main(rt: HostRuntime) -> ExitCode {
    match start(&rt) {
        Ok(()) => ExitCode::SUCCESS,
        Err(fault) => {
            // A failure to report a fault can't be reported.
            let _ = write_fault(&fault, &mut CheckedWriter::new(rt.stderr()));
            ExitCode::from(status_of(&fault))
        }
    }
}

/// Does what the arguments ask for.
fn start(rt: &HostRuntime) -> Result<(), Fault> {
    let words = words_of(rt)?;
    match command_of(words.as_slice()) {
        Some(Form::Check { config }) => check_file(rt, config),
        Some(Form::Run { config, script }) => run_files(rt, config, script),
        Some(Form::Session { config, script }) => session_over(rt, config, script),
        None => Err(Fault::Usage),
    }
}

/// Reads a configuration file.
fn config_bytes(rt: &HostRuntime, path: &str) -> Result<Vec<u8>, Fault> {
    let file = open_file(rt, path, Fault::CannotReadConfig)?;
    match read_config_file(rt.alloc(), &mut CheckedReader::new(file)) {
        Ok(bytes) => Ok(bytes?),
        Err(_) => Err(Fault::CannotReadConfig),
    }
}

/// Checks the configuration in a file.
fn check_file(rt: &HostRuntime, config: &str) -> Result<(), Fault> {
    let config = config_bytes(rt, config)?;
    check_config(
        rt.alloc(),
        config.as_slice(),
        &mut CheckedWriter::new(rt.stdout()),
    )
}

/// Runs the script in one file under the configuration in another.
fn run_files(rt: &HostRuntime, config: &str, script: &str) -> Result<(), Fault> {
    let config = config_bytes(rt, config)?;
    let script = open_file(rt, script, Fault::CannotReadScript)?;
    let Ok(out) = BufWriter::with_capacity(rt.alloc(), WRITTEN_AT_ONCE, rt.stdout()) else {
        return Err(Fault::Memory);
    };
    run_script(
        rt.alloc(),
        config.as_slice(),
        &mut CheckedReader::new(script),
        &mut CheckedWriter::new(out),
    )
}

/// Answers the commands on standard input, over a script and a configuration.
fn session_over(rt: &HostRuntime, config: &str, script: &str) -> Result<(), Fault> {
    let config = config_bytes(rt, config)?;
    let script = open_file(rt, script, Fault::CannotReadScript)?;
    let Ok(out) = BufWriter::new(rt.alloc(), rt.stdout()) else {
        return Err(Fault::Memory);
    };
    run_session(
        rt.alloc(),
        config.as_slice(),
        &mut CheckedReader::new(script),
        &mut CheckedReader::new(rt.stdin()),
        &mut CheckedWriter::new(out),
    )
}

/// Returns the arguments after the program's name. An argument that isn't UTF-8 is a usage error.
fn words_of(rt: &(impl Env + AllocGlobal)) -> Result<Vec<String>, Fault> {
    match env::args(rt) {
        Ok(args) => args
            .skip(1)
            .collect(rt.alloc())
            .map_err(|_error: AllocError| Fault::Memory),
        Err(e) if e.kind() == ErrorKind::OutOfMemory => Err(Fault::Memory),
        Err(_) => Err(Fault::Usage),
    }
}

/// Opens a file. If it can't be opened, the fault is `Memory` if memory ran out, and else `unread`.
fn open_file<R: Files>(rt: &R, path: &str, unread: Fault) -> Result<R::File, Fault> {
    match fs::open(rt, path) {
        Ok(file) => Ok(file),
        Err(error) if error.kind() == ErrorKind::OutOfMemory => Err(Fault::Memory),
        Err(_) => Err(unread),
    }
}
