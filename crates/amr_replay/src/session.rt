//! A cursor over a script. Whatever steps, backs, seeks and trials came before, the session shows
//! the run of the events before the cursor, from the start. Each event passed has a record, so that
//! going back takes no memory.
ghost use Rattle.std.specs.Prelude.{◌≡◌, ◌+◌, ◌-◌, ◌<◌, ◌≤◌, true, [], Some, Err, IsOk, IsOkAnd, IfOk, IfErr, OnOk, OnErr, length, map, slice_get};
ghost use Rattle.amr_events.specs.Actions.Events.{is_label};
ghost use Rattle.amr_engine.specs.Events.{Refused, outcome_of};
ghost use Rattle.amr_engine.specs.Outcomes.{outcome_view};
ghost use Rattle.amr_engine.specs.Explain.{verdicts};
ghost use Rattle.amr_engine.specs.Placed.{ArePlaced, HasTimers, AreListed};
ghost use Rattle.amr_engine.specs.State.Seen.{groups_of};
ghost use Rattle.amr_engine.specs.Told.{ToldIsNotified};
ghost use Rattle.amr_replay.specs.Session.{at_cursor, state_at, outcomes_passed, events_until};
ghost use Rattle.amr_replay.specs.Records.{HasEntries};

use crate::quiet_events::QuietEvents;
use amr_config::Config;
use amr_engine::state::{Group, Store};
use amr_engine::{Engine, Outcome, Verdict};
use amr_events::actions::Event;
use amr_events::{Script, Version};
use amr_labels::Labels;
use amr_time::Moment;
use std::alloc::{AllocError, Global};
use std::marker::Model;
use thiserror::Error;

/// Why a call changed nothing.
#[derive(Clone, Copy, Debug, PartialEq, Eq, Error)]
pub enum SessionError {
    #[error("out of memory")]
    Memory,
    #[error("the cursor is at the end of the script")]
    AtEnd,
    #[error("the cursor is at the start of the script")]
    AtStart,
    #[error("the script has fewer events")]
    OutOfRange,
}

impl From<AllocError> for SessionError {
    ghost use Rattle.std.specs.Prelude.{◌≡◌};
    ghost use Rattle.amr_replay.specs.declared.session.SessionError.TheVariants.{Memory};

    ghost from_gives = { λ _ e. e ≡ Memory };

    fn from(_error: AllocError) -> SessionError {
        SessionError::Memory
    }
}

/// A session: a configuration and a script, with a cursor, which is the number of events passed.
#[derive(Drop)]
pub struct Session {
    alloc: Global,
    /// The configuration at the start. `state` has the one in force, which a reload changes.
    config: Config,
    script: Script,
    cursor: usize,
    engine: Engine,
    quiet_events: QuietEvents,
}

impl Model for Session {
    ghost use Rattle.std.specs.Coded.{codes};
    ghost use Rattle.amr_labels.specs.Map as map;
    ghost use Rattle.amr_replay.specs.Session.{View};

    ghost Value = { View };

    ghost coded = { Prim.hlevel (codes, map.code) };

    ghost use Rattle.amr_replay.specs.Held.{view_of, IsAtCursor};

    ghost view = { view_of };

    ghost invariant = { IsAtCursor };
}

impl Session {
    /// Returns a session with the cursor at the start of the script.
    pub fn new(alloc: Global, config: Config, script: Script) -> Result<Session, SessionError>
        ensures ok { IfOk result (λ session. session
            ≡ at_cursor config script.version script.events 0) }
        ensures memory { IfErr result (λ error. error ≡ SessionError.Memory) }
    {
        let engine = Engine::new(alloc, config.clone()?);
        Ok(Session {
            alloc,
            config,
            script,
            cursor: 0,
            engine,
            quiet_events: QuietEvents::new(alloc),
        })
    }

    /// Returns the number of events passed. The session shows the run of the events before its
    /// cursor.
    pub fn cursor(&self) -> usize
        ensures cursor { result ≡ self.now.cursor }
        ensures within { self.now.cursor ≤ length self.now.events }
        ensures view { self.now
            ≡ at_cursor self.now.config self.now.version self.now.events self.now.cursor }
    {
        self.cursor
    }

    /// Returns the version of the script. It takes no memory.
    pub fn version(&self) -> Version
        ensures { result ≡ self.now.version }
    {
        self.script.version()
    }

    /// Returns the number of events in the script.
    pub fn events(&self) -> usize
        ensures { result ≡ length self.now.events }
    {
        self.script.len()
    }

    /// Returns an event of the script; `index` counts from 0.
    pub fn event(&self, index: usize) -> &Event
        requires { index < length self.now.events }
        ensures { slice_get self.now.events index ≡ Some result.now }
    {
        self.script.event(index)
    }

    /// Returns the number of records, one for each event passed. It takes no memory.
    #[tactic(auto, using(crate::proofs::Recorded::records_count))]
    pub fn records(&self) -> usize
        ensures { result ≡ self.now.cursor }
    {
        self.engine.records()
    }

    /// Returns the number of entries in the record of an event passed; `index` counts from 0. The
    /// record of a refused event or of a label has none. It takes no memory.
    #[tactic(auto, using(crate::proofs::Recorded::records_count))]
    pub fn record_len(&self, index: usize) -> usize
        requires { index < self.now.cursor }
        ensures entries { (event : _) → slice_get self.now.events index ≡ Some event →
            HasEntries (state_at self.now.config self.now.events index) event result }
        ensures refused { (event : _) (reason : _) → slice_get self.now.events index ≡ Some event →
            outcome_of (state_at self.now.config self.now.events index) event ≡ Refused reason →
            result ≡ 0 }
        ensures label { (event : _) → slice_get self.now.events index ≡ Some event →
            is_label event.act ≡ true → result ≡ 0 }
    {
        self.engine.record_len(index)
    }

    /// Passes the next event, even if it is refused, and returns its outcome.
    pub fn step(&mut self) -> Result<Outcome, SessionError>
        ensures outcome { IfOk result (λ outcome. (event : _)
            → slice_get self.old.events self.old.cursor ≡ Some event → outcome_view outcome
            ≡ outcome_of self.old.state event) }
        ensures inside { OnOk result (self.old.cursor < length self.old.events) }
        ensures ok { OnOk result (self.new
            ≡ at_cursor self.old.config self.old.version self.old.events (self.old.cursor + 1)) }
        ensures err { OnErr result (self.new ≡ self.old) }
        ensures at_end { self.old.cursor ≡ length self.old.events → result
            ≡ Err SessionError.AtEnd }
        ensures memory { IfErr result (λ error. self.old.cursor < length self.old.events → error
            ≡ SessionError.Memory) }
    {
        if self.cursor == self.script.len() {
            return Err(SessionError::AtEnd);
        }
        let mut quiet = self.quiet_events.take(self.cursor);
        let event = self.script.event(self.cursor);
        let applied = self.engine.apply_noting(&mut quiet, event);
        self.quiet_events.put(self.cursor, quiet);
        let outcome = applied?;
        self.cursor += 1;
        Ok(outcome)
    }

    /// Undoes the last event. It takes no memory, so it only fails at the start.
    pub fn back(&mut self) -> Result<(), SessionError>
        ensures at_start { self.old.cursor ≡ 0 → (result ≡ Err SessionError.AtStart)
            × (self.new ≡ self.old) }
        ensures back { 0 < self.old.cursor → IsOk result
            × (self.new
            ≡ at_cursor self.old.config self.old.version self.old.events (self.old.cursor - 1)) }
    {
        if self.cursor == 0 {
            return Err(SessionError::AtStart);
        }
        self.unstep();
        Ok(())
    }

    /// Goes back by one event.
    fn unstep(&mut self)
        requires { 0 < self.old.cursor }
        ensures { self.new
            ≡ at_cursor self.old.config self.old.version self.old.events (self.old.cursor - 1) }
    {
        self.engine.undo_last();
        self.cursor -= 1;
    }

    /// Moves the cursor to `to` events from the start, or not at all, and returns the outcomes of
    /// the events that it passed forward. To the cursor or below it takes no memory.
    pub fn seek(&mut self, to: usize) -> Result<Vec<Outcome>, SessionError>
        ensures outcomes { IfOk result (λ outcomes. map outcome_view outcomes.items
            ≡ outcomes_passed self.old.config self.old.events self.old.cursor to) }
        ensures inside { OnOk result (to ≤ length self.old.events) }
        ensures ok { OnOk result (self.new
            ≡ at_cursor self.old.config self.old.version self.old.events to) }
        ensures err { OnErr result (self.new ≡ self.old) }
        ensures back { to ≤ self.old.cursor → IsOkAnd result (λ outcomes. outcomes.items ≡ []) }
        ensures out_of_range { length self.old.events < to → result ≡ Err SessionError.OutOfRange }
        ensures memory { IfErr result (λ error. to ≤ length self.old.events → error
            ≡ SessionError.Memory) }
    {
        if self.script.len() < to {
            return Err(SessionError::OutOfRange);
        }
        Ok(self.move_to(to)?)
    }

    /// Moves the cursor after the first events that are all at or before a moment, as `seek` does.
    /// The clock only advances to the last event passed, not to the moment.
    pub fn seek_time(&mut self, at: Moment) -> Result<Vec<Outcome>, AllocError>
        ensures outcomes { IfOk result (λ outcomes. map outcome_view outcomes.items
            ≡ outcomes_passed self.old.config self.old.events self.old.cursor
            (events_until at self.old.events)) }
        ensures ok { OnOk result (self.new
            ≡ at_cursor self.old.config self.old.version self.old.events
            (events_until at self.old.events)) }
        ensures err { OnErr result (self.new ≡ self.old) }
        ensures back { events_until at self.old.events ≤ self.old.cursor
            → IsOkAnd result (λ outcomes. outcomes.items ≡ []) }
    {
        let to = events_until(&self.script, at);
        self.move_to(to)
    }

    /// Moves the cursor to a position in the script.
    fn move_to(&mut self, to: usize) -> Result<Vec<Outcome>, AllocError>
        requires { to ≤ length self.old.events }
        ensures outcomes { IfOk result (λ outcomes. map outcome_view outcomes.items
            ≡ outcomes_passed self.old.config self.old.events self.old.cursor to) }
        ensures ok { OnOk result (self.new
            ≡ at_cursor self.old.config self.old.version self.old.events to) }
        ensures err { OnErr result (self.new ≡ self.old) }
        ensures back { to ≤ self.old.cursor → IsOkAnd result (λ outcomes. outcomes.items ≡ []) }
    {
        let from = self.cursor();
        if to <= from {
            self.rewind(to);
            return Ok(Vec::new(self.alloc));
        }
        match self.forward(to) {
            Ok(outcomes) => Ok(outcomes),
            Err(error) => {
                self.rewind(from);
                Err(error)
            }
        }
    }

    /// Moves the cursor back to an earlier position.
    fn rewind(&mut self, to: usize)
        requires { to ≤ self.old.cursor }
        ensures { self.new
            ≡ at_cursor self.old.config self.old.version self.old.events to }
    {
        while to < self.cursor() {
            self.unstep();
        }
    }

    /// Passes the events up to a position, until memory runs out.
    fn forward(&mut self, to: usize) -> Result<Vec<Outcome>, AllocError>
        requires from { self.old.cursor ≤ to }
        requires inside { to ≤ length self.old.events }
        ensures outcomes { IfOk result (λ outcomes. map outcome_view outcomes.items
            ≡ outcomes_passed self.old.config self.old.events self.old.cursor to) }
        ensures ok { OnOk result (self.new
            ≡ at_cursor self.old.config self.old.version self.old.events to) }
        ensures config { self.new.config ≡ self.old.config }
        ensures version { self.new.version ≡ self.old.version }
        ensures events { self.new.events ≡ self.old.events }
        ensures cursor { self.old.cursor ≤ self.new.cursor }
    {
        let mut outcomes = Vec::new(self.alloc);
        while self.cursor() < to {
            match self.step() {
                Ok(outcome) => outcomes.push(outcome)?,
                // An event is left, so the error was memory.
                Err(_) => return Err(AllocError),
            }
        }
        Ok(outcomes)
    }

    /// Returns the outcome that an event would have at the cursor, and changes nothing.
    pub fn trial(&mut self, event: &Event) -> Result<Outcome, AllocError>
        ensures outcome { IfOk result (λ outcome. outcome_view outcome
            ≡ outcome_of self.old.state event.now) }
        ensures same { self.new ≡ self.old }
    {
        let mut quiet = self.quiet_events.take(self.cursor);
        let tried = self.engine.apply_noting(&mut quiet, event);
        self.quiet_events.put(self.cursor, quiet);
        let outcome = tried?;
        self.engine.undo_last();
        Ok(outcome)
    }

    /// Works out which alerts can inhibit one with these labels, so that `explain` needn't look for
    /// them among all stored alerts.
    pub fn cache_sources(&mut self, labels: &Labels) -> Result<(), AllocError>
        ensures { self.new ≡ self.old }
    {
        self.engine.cache_sources(labels)
    }

    /// Explains why an alert with these labels was or wasn't in a notification, at the cursor. An
    /// alert explained as `Told` is in a notification of the transcript. It is much faster on a large
    /// state if `cache_sources` was called before.
    pub fn explain(&self, labels: &Labels) -> Result<Vec<Verdict>, AllocError>
        ensures explained { IfOk result (λ found. found.items
            ≡ verdicts self.now.state labels.now) }
        ensures timed { HasTimers self.now.state labels.now }
        ensures notified { IfOk result (λ found.
            ToldIsNotified self.now.state labels.now found.items) }
    {
        self.engine.explain(labels)
    }

    /// Returns the state at the cursor. `Store` has a getter for each part.
    pub fn state(&self) -> &Store
        ensures { result.now.state ≡ self.now.state }
    {
        self.engine.state()
    }

    /// Returns the groups at the cursor, by route and labels. A stored alert that isn't resolved is
    /// in its group on exactly the routes that take it, as it is stored.
    pub fn groups(&self) -> Result<Vec<Group>, AllocError>
        ensures listed { IfOk result (λ found. found.items ≡ groups_of self.now.state) }
        ensures placed { ArePlaced self.now.state }
        ensures members { AreListed self.now.state (groups_of self.now.state) }
    {
        self.engine.groups()
    }
}

/// Returns how many events at the front of a script are all at or before a moment.
fn events_until(script: &Script, at: Moment) -> usize
    ensures count { result ≡ events_until at script.now.events }
    ensures within { result ≤ length script.now.events }
{
    for n in 0..script.len() {
        if at.nanoseconds() < script.event(n).at().nanoseconds() {
            return n;
        }
    }
    script.len()
}
