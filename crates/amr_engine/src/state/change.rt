//! A change of the state: a place, and the value that it gets. `Store` makes changes, and enters for
//! each the change that leads back into the open record, which undoes the event.
ghost use Rattle.std.specs.Prelude.{◌≡◌, IfOk};
ghost use Rattle.amr_labels.specs.Map as map;
ghost use Rattle.amr_config.specs.RouteLabels.{route_labels_cmp};
ghost use Rattle.amr_tables.specs.Numbered.{map_of};

use crate::state::notification::{GroupTimer, LogKey};
use crate::state::roster::Roster;
use amr_config::{Config, RouteLabels};
use amr_events::posts::SilenceId;
use amr_labels::{Labels, Shared};
use amr_rules::{Alert, LogEntry, Silence};
use amr_time::Moment;
use std::alloc::{AllocError, Global};
use std::marker::Model;

/// A place of the state and a value for it; `None` leaves the place empty. All entries of a record are
/// as large as the largest, so what is large is in memory of its own.
#[derive(Drop)]
pub enum Change {
    /// The moment of the clock.
    OfMoment(Moment),
    /// The configuration in force with its groups, which a reload drops.
    OfRoster(BoxedRoster),
    /// The stored alert with these labels.
    OfAlert(Labels, Option<Shared<Alert>>),
    /// The silence with this id.
    OfSilence(SilenceId, Option<Silence>),
    /// The member of a group with these labels on this route.
    OfMember(RouteLabels, Option<Shared<Alert>>),
    /// The timer of a group.
    OfTimer(RouteLabels, Option<GroupTimer>),
    /// The entry of the notification log under this key.
    OfLog(LogKey, Option<Shared<LogEntry>>),
    /// The number of notifications, which drops the later ones.
    OfNotes(usize),
}

/// A configuration with its groups, in memory of its own.
#[derive(Drop)]
pub struct BoxedRoster {
    roster: Box<Roster>,
}

impl Model for BoxedRoster {
    ghost use Rattle.std.specs.Coded.{codes};
    ghost use Rattle.amr_labels.specs.Map as map;
    ghost use Rattle.amr_engine.specs.State.Rostered.{Rostered};

    ghost Value = { Rostered };

    ghost coded = { Prim.hlevel (codes, map.code) };

    ghost view = { λ boxed. boxed.roster.value };
}

impl BoxedRoster {
    /// Takes a configuration, under which there are no groups yet.
    pub(crate) fn new(alloc: Global, config: Config) -> Result<BoxedRoster, AllocError>
        ensures config { IfOk result (λ boxed. boxed.config ≡ config) }
        ensures placements { IfOk result (λ boxed.
            map_of route_labels_cmp boxed.placements ≡ map.empty) }
        ensures timers { IfOk result (λ boxed. map_of route_labels_cmp boxed.timers ≡ map.empty) }
    {
        Ok(BoxedRoster {
            roster: Box::new(alloc, Roster::new(alloc, config))?,
        })
    }

    /// Swaps it with the roster in use, which takes over what patterns answered. It takes no memory.
    pub(crate) fn swap(&mut self, used: &mut Roster)
        ensures kept { self.new ≡ used.old }
        ensures used { used.new ≡ self.old }
    {
        used.swap(&mut self.roster);
    }
}
