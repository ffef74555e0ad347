//! Scripts: JSON lines, each an event. The program reads a whole script before it applies its first
//! event, so that a faulty one does nothing.
ghost use Rattle.std.specs.Prelude.{◌≡◌, ◌<◌, ◌==◌, length, Some, Err};
ghost use Rattle.std.specs.List.{slice_get};
ghost use Rattle.std.specs.Global.{Vec};
ghost use Rattle.amr_events.specs.Actions.Events.{Event};
ghost use Rattle.amr_events.specs.Answers.{Answers};
ghost use Rattle.amr_events.specs.Scripts.{OnlyLineIs};

use crate::actions::Event;
use crate::error::{Fault, LineError, ScriptError};
use crate::line::read_single_line;
use crate::version::Version;
use amr_labels::Listing;
use std::alloc::Global;
use std::marker::Model;

/// A script: its version, and its events in order.
#[derive(Drop)]
pub struct Script {
    version: Version,
    events: Listing<Event>,
}

impl Model for Script {
    ghost use Rattle.std.specs.Prelude.{List};
    ghost use Rattle.std.specs.Coded.{codes};
    ghost use Rattle.amr_labels.specs.Map as map;
    ghost use Rattle.amr_events.specs.Actions.Events.{Event};
    ghost use Rattle.amr_events.specs.Scripts.{Script};

    ghost Value = { Script };

    ghost coded = { Prim.hlevel (codes, map.code) };

    ghost view = { λ script. record { version = script.version; events = script.events } };
}

/// Reads one line of a script of this version; its number in a fault is 1.
///
/// A line is an object with a moment (RFC 3339) under `at` and exactly one action:
///
/// - `alerts`, a list of postable alerts (Alertmanager's API v2). An alert has `labels`, an
///   object of texts, and may have `annotations`, an object of texts, `startsAt` and `endsAt`.
///   A time is missing if it is absent, `null`, empty, or `0001-01-01T00:00:00Z`, also with a
///   fraction of 1 to 9 zeros.
/// - `silence`, a postable silence, with `newId`, a UUID, beside it in the line. A silence has
///   `startsAt`, `endsAt`, a list of `matchers`, each with the texts `name` and `value` and the
///   booleans `isRegex` (false by default) and `isEqual` (true by default), and may have an
///   `id`, a UUID. Its patterns are built here, once: there are no matchers if a name is empty
///   or a pattern is refused.
/// - `expire`, a UUID.
/// - `reload`, a configuration of any shape. It is validated here, once.
/// - `tick`, which is `true`.
/// - `label`, a text, in version 2 only.
///
/// Other keys are ignored, in version 1 `label` too. If a name is repeated in an object, the last
/// member counts.
pub fn read_event(alloc: Global, version: Version, line: &[u8]) -> Result<Event, ScriptError>
    ensures { Answers (OnlyLineIs version line.now) result }
{
    match read_single_line(alloc, version, line) {
        Ok(event) => Ok(event),
        Err(LineError::Memory) => Err(ScriptError::Memory),
        Err(LineError::Faulty) => Err(ScriptError::Refused(Fault::BadLine { line: 1 })),
    }
}

impl Script {
    /// Returns a script of this version with these events.
    pub(crate) fn new(version: Version, events: Vec<Event>) -> Script
        ensures version { result.version ≡ version }
        ensures events { result.events ≡ events.items }
    {
        Script {
            version,
            events: Listing::from_vec(events),
        }
    }

    /// Returns the version. It takes no memory.
    pub fn version(&self) -> Version
        ensures { result ≡ self.now.version }
    {
        self.version
    }

    /// Returns the number of events.
    pub fn len(&self) -> usize
        ensures { result ≡ length self.now.events }
    {
        self.events.len()
    }

    /// Returns whether there is no event.
    pub fn is_empty(&self) -> bool
        ensures { result ≡ (length self.now.events == 0) }
    {
        self.events.is_empty()
    }

    /// Returns an event by its number, from 0.
    pub fn event(&self, number: usize) -> &Event
        requires { number < length self.now.events }
        ensures { slice_get self.now.events number ≡ Some result.now }
    {
        &self.events.as_slice()[number]
    }
}
