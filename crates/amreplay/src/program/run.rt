//! The command `run`: applies all events of a script and writes their lines. It never goes back, so
//! it keeps no record and calls the engine itself instead of a session.
ghost use Rattle.std.specs.Prelude.{◌≡◌, ◌+◌, List, [], IfOk, OnOk, length, ℕ, string_bytes};
ghost use Rattle.amreplay.specs.Lines.Printed.{event_lines};
ghost use Rattle.amreplay.specs.Program.Files.{FilesLeave};
ghost use Rattle.amreplay.specs.Program.Runs.{Leaves, RunLeaves};
ghost use Rattle.amreplay.specs.Program.Input.{MayHold};
ghost use Rattle.amreplay.specs.Ends.{EndsBy, EndsScriptBy};
ghost use Rattle.amr_engine.specs.Outcomes.{outcome_view};
ghost use Rattle.amr_engine.specs.Events.{outcome_of, after_event, without_notifications};
ghost use Rattle.amr_engine.specs.State.State.{start};

use crate::fault::Fault;
use crate::lines::{CheckedReader, CheckedWriter, flush, push_event_lines, write_whole};
use crate::program::load::read_files;
use amr_engine::{Engine, Outcome};
use amr_events::Script;
use amr_events::actions::Event;
use std::alloc::Global;
use std::io::{Read, Write};
use std::mem::forget;

/// Runs a script under a configuration, and writes the lines of its events.
///
/// The whole script is read before its first event is applied, and nothing is written if one of the
/// files is refused. If both are, the fault is that of the configuration. The text of an event is
/// built before its first byte is written, so if memory runs out the lines of the events before it
/// are written, and none of its own.
pub fn run_script<R: Read, W: Write>(
    alloc: Global,
    config: &[u8],
    script: &mut CheckedReader<R>,
    out: &mut CheckedWriter<W>,
) -> Result<(), Fault>
    ensures left { (all : List ℕ) × MayHold (R.remaining script.old.reader) all
        × FilesLeave (W.contents out.old.writer) (W.contents out.new.writer) config.now all result }
    ensures read { EndsScriptBy result script.old.failed script.new.failed script.new.calls }
    ensures ended { EndsBy result out.old.failed out.new.failed }
{
    let (config, script) = read_files(alloc, config, script)?;
    let mut engine = Engine::new(alloc, config);
    let ended = write_run(alloc, &mut engine, &script, out);
    // The process ends next. To free a large state piece by piece would only take time.
    forget(engine);
    forget(script);
    ended
}

/// Applies all events, writes their lines, and flushes the writer, even if memory ran out.
fn write_run<W: Write>(
    alloc: Global,
    engine: &mut Engine,
    script: &Script,
    out: &mut CheckedWriter<W>,
) -> Result<(), Fault>
    requires { engine.old.state ≡ start engine.old.state.config }
    ensures left { RunLeaves (W.contents out.old.writer) (W.contents out.new.writer)
        engine.old.state.config script.now.events result }
    ensures ended { EndsBy result out.old.failed out.new.failed }
{
    let ended = write_events(alloc, engine, script, out);
    flush(out)?;
    ended
}

/// Applies all events of a script, and writes the lines of each.
fn write_events<W: Write>(
    alloc: Global,
    engine: &mut Engine,
    script: &Script,
    out: &mut CheckedWriter<W>,
) -> Result<(), Fault>
    requires { engine.old.state ≡ start engine.old.state.config }
    ensures left { RunLeaves (W.contents out.old.writer) (W.contents out.new.writer)
        engine.old.state.config script.now.events result }
    ensures ended { EndsBy result out.old.failed out.new.failed }
{
    let mut text = String::new(alloc);
    for number in 0..script.len() {
        let event = script.event(number);
        pass_event(engine, &mut text, number as u64 + 1, event, out)?;
    }
    Ok(())
}

/// Applies an event, drops its record and its notifications from the state, and writes its lines. A
/// run needs neither for the events that follow. The text is that of the event before, whose memory
/// is used again.
fn pass_event<W: Write>(
    engine: &mut Engine,
    text: &mut String,
    number: u64,
    event: &Event,
    out: &mut CheckedWriter<W>,
) -> Result<(), Fault>
    ensures left { Leaves (W.contents out.old.writer) (W.contents out.new.writer)
        (event_lines number event.now (outcome_of engine.old.state event.now)) result }
    ensures passed { OnOk result (engine.new.state
        ≡ without_notifications (after_event engine.old.state event.now)) }
    ensures forgotten { OnOk result (engine.new.records ≡ []) }
    ensures ended { EndsBy result out.old.failed out.new.failed }
{
    let outcome = engine.apply(event)?;
    engine.forget();
    engine.drop_notifications();
    write_event(text, number, event, &outcome, out)
}

/// Writes the lines of an event that had this outcome. Their text is built first, so that running
/// out of memory never leaves half a line.
fn write_event<W: Write>(
    text: &mut String,
    number: u64,
    event: &Event,
    outcome: &Outcome,
    out: &mut CheckedWriter<W>,
) -> Result<(), Fault>
    ensures left { Leaves (W.contents out.old.writer) (W.contents out.new.writer)
        (event_lines number event.now (outcome_view outcome.now)) result }
    ensures ended { EndsBy result out.old.failed out.new.failed }
{
    text.clear();
    push_event_lines(text, number, event, outcome)?;
    write_whole(out, text.as_bytes())?;
    Ok(())
}
