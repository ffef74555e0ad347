//! The engine: a state, and a record for each event by which the event can be undone. Sessions and
//! runs apply events through it; nothing else changes a state.
ghost use Rattle.std.specs.Prelude.{◌≡◌, ◌<◌, List, [], ◌∷◌, ◌++◌, length, IfOk, OnOk, OnErr, Some, option_map, slice_get};
ghost use Rattle.amr_engine.specs.State.State.{start};
ghost use Rattle.amr_engine.specs.declared.state.change.Change.{Change};
ghost use Rattle.amr_engine.specs.Events.{after_event, outcome_of, without_notifications};
ghost use Rattle.amr_engine.specs.Outcomes.{outcome_view};
ghost use Rattle.amr_engine.specs.Kept.{RecordOf};
ghost use Rattle.amr_engine.specs.QuietMoves.{AreQuietMoves};
ghost use Rattle.amr_engine.specs.Explain.{verdicts};
ghost use Rattle.amr_engine.specs.Placed.{ArePlaced, HasTimers, AreListed};
ghost use Rattle.amr_engine.specs.State.Seen.{groups_of};

use crate::apply::attempt;
use crate::explain;
use crate::outcome::Outcome;
use crate::quiet::QuietGroups;
use crate::quiet_moves::QuietMoves;
use crate::stages::cache_sources;
use crate::state::{Group, Store, views};
use crate::verdict::Verdict;
use amr_config::Config;
use amr_events::actions::Event;
use amr_labels::Labels;
use std::alloc::{AllocError, Global};
use std::marker::Model;

/// A replayed Alertmanager, with a record for each event that it has applied, by which the event
/// can be undone.
#[derive(Drop)]
pub struct Engine {
    store: Store,
    /// Which groups are quiet, and until when. It follows from the state and is no part of it.
    quiet_groups: QuietGroups,
}

impl Model for Engine {
    ghost use Rattle.std.specs.Coded.{codes};
    ghost use Rattle.std.specs.Prelude.{◌≡◌, []};
    ghost use Rattle.amr_labels.specs.Map as map;
    ghost use Rattle.amr_engine.specs.State.Records.{befores};
    ghost use Rattle.amr_engine.specs.State.Steps.{Steps};
    ghost use Rattle.amr_engine.specs.CachedQuiet.{IsTrueOf};
    ghost use Rattle.amr_engine.specs.Placed.{StayPlaced};

    ghost Value = { Steps };

    ghost coded = { Prim.hlevel (codes, map.code) };

    ghost view = { λ engine. record { state = engine.store.state; past = befores engine.store.records engine.store.state; records = engine.store.records } };

    ghost invariant = { λ engine. (engine.store.current ≡ [])
        × IsTrueOf engine.quiet_groups engine.store.state
        × StayPlaced engine.store.state (befores engine.store.records engine.store.state) };
}

impl Engine {
    /// Returns an engine in which nothing is stored, with the clock at 1970.
    #[tactic(auto, using(crate::proofs::Settling::no_past))]
    pub fn new(alloc: Global, config: Config) -> Engine
        ensures state { result.state ≡ start config }
        ensures past { result.past ≡ [] }
        ensures records { result.records ≡ [] }
    {
        Engine {
            store: Store::new(alloc, config),
            quiet_groups: QuietGroups::new(alloc),
        }
    }

    /// Applies an event, and records what it displaces, in at most four entries for each unit of
    /// the event's weight. A refused event changes nothing and gets an empty record. If memory runs
    /// out, nothing changes and there is no new record.
    pub fn apply(&mut self, event: &Event) -> Result<Outcome, AllocError>
        ensures outcome { IfOk result (λ outcome. outcome_view outcome
            ≡ outcome_of self.old.state event.now) }
        ensures state { OnOk result (self.new.state ≡ after_event self.old.state event.now) }
        ensures past { OnOk result (self.new.past ≡ self.old.past ++ self.old.state ∷ []) }
        ensures record_kept { IfOk result (λ outcome.
            (r : List Change) × RecordOf self.old event.now self.new outcome r) }
        ensures err { OnErr result (self.new ≡ self.old) }
    {
        let mut quiet_moves = QuietMoves::new(self.store.alloc());
        self.apply_noting(&mut quiet_moves, event)
    }

    /// Applies an event as `apply` does. What `quiet_moves` caches of the moves from this state
    /// saves work, and it caches those that the event makes.
    pub fn apply_noting(
        &mut self,
        quiet_moves: &mut QuietMoves,
        event: &Event,
    ) -> Result<Outcome, AllocError>
        requires { AreQuietMoves quiet_moves.old self.old.state }
        ensures quiet { AreQuietMoves quiet_moves.new self.old.state }
        ensures outcome { IfOk result (λ outcome. outcome_view outcome
            ≡ outcome_of self.old.state event.now) }
        ensures state { OnOk result (self.new.state ≡ after_event self.old.state event.now) }
        ensures past { OnOk result (self.new.past ≡ self.old.past ++ self.old.state ∷ []) }
        ensures record_kept { IfOk result (λ outcome.
            (r : List Change) × RecordOf self.old event.now self.new outcome r) }
        ensures err { OnErr result (self.new ≡ self.old) }
    {
        self.store.begin()?;
        match attempt(&mut self.store, &mut self.quiet_groups, quiet_moves, event) {
            Ok(outcome) => {
                self.store.close();
                Ok(outcome)
            }
            Err(error) => {
                self.store.undo_open();
                self.quiet_groups.clear();
                Err(error)
            }
        }
    }

    /// Undoes the last event. It takes no memory, so it can't fail.
    #[tactic(auto, using(crate::proofs::Settling::some_record, crate::proofs::Settling::past_undone))]
    pub fn undo_last(&mut self)
        requires { 0 < length self.old.past }
        ensures past { self.old.past ≡ self.new.past ++ self.new.state ∷ [] }
        ensures records { (last : List Change)
            × (self.old.records ≡ self.new.records ++ last ∷ []) }
    {
        self.store.reopen();
        self.store.undo_open();
        self.quiet_groups.clear();
    }

    /// Returns the number of records, which is that of the events that can be undone.
    pub fn records(&self) -> usize
        ensures { result ≡ length self.now.records }
    {
        self.store.records()
    }

    /// Returns the number of entries in a record; `index` counts from 0.
    pub fn record_len(&self, index: usize) -> usize
        requires { index < length self.now.records }
        ensures { option_map length (slice_get self.now.records index) ≡ Some result }
    {
        self.store.record_len(index)
    }

    /// Drops all records. The events applied so far can't be undone any more. A run does this after
    /// each event, so that its memory doesn't grow with the script.
    #[tactic(auto, using(crate::proofs::Settling::no_past, crate::proofs::PlacedRuns::forgotten_stays))]
    pub fn forget(&mut self)
        ensures state { self.new.state ≡ self.old.state }
        ensures past { self.new.past ≡ [] }
        ensures records { self.new.records ≡ [] }
    {
        self.store.forget();
    }

    /// Drops the notifications so far, once no event can be undone any more. A run, which has their
    /// texts, does this after each event, so that its memory doesn't grow with them.
    #[tactic(auto, using(crate::proofs::Settling::no_past, crate::proofs::PlacedRuns::dropped_stays, crate::proofs::CachedQuiet::stays_true))]
    pub fn drop_notifications(&mut self)
        requires { self.old.records ≡ [] }
        ensures state { self.new.state ≡ without_notifications self.old.state }
        ensures past { self.new.past ≡ [] }
        ensures records { self.new.records ≡ [] }
    {
        self.store.drop_notifications();
    }

    /// Returns the state. `Store` has a getter for each part.
    pub fn state(&self) -> &Store
        ensures { result.now.state ≡ self.now.state }
    {
        &self.store
    }

    /// Returns the groups, by route and labels. A stored alert that isn't resolved is in its group
    /// on exactly the routes that take it, as it is stored.
    pub fn groups(&self) -> Result<Vec<Group>, AllocError>
        ensures listed { IfOk result (λ found. found.items ≡ groups_of self.now.state) }
        ensures placed { ArePlaced self.now.state }
        ensures members { AreListed self.now.state (groups_of self.now.state) }
    {
        views::groups(&self.store)
    }

    /// Works out which alerts can inhibit one with these labels, so that `explain` needn't look for
    /// them among all stored alerts. A flush does so for its members, too.
    pub fn cache_sources(&mut self, labels: &Labels) -> Result<(), AllocError>
        ensures { self.new ≡ self.old }
    {
        let number = self.store.number_of(labels);
        cache_sources(&mut self.store, number, labels)
    }

    /// Explains why an alert with these labels was or wasn't in a notification. It returns one
    /// verdict if no such alert is stored or the stored one is resolved. Otherwise it returns one
    /// for each route that takes the alert and each integration of the route's receiver.
    pub fn explain(&self, labels: &Labels) -> Result<Vec<Verdict>, AllocError>
        ensures explained { IfOk result (λ found. found.items
            ≡ verdicts self.now.state labels.now) }
        ensures timed { HasTimers self.now.state labels.now }
    {
        explain::verdicts(&self.store, labels)
    }
}
