//! An event: a moment, and an action at that moment. The engine applies events; they don't know the
//! state.
ghost use Rattle.std.specs.Prelude.{◌≡◌, ◌≤◌};
ghost use Rattle.amr_time.specs.Time.{latest_read};

use crate::posts::{PostedAlert, PostedSilence, Reason, SilenceId};
use amr_config::Config;
use amr_labels::{Listing, Text};
use amr_time::Moment;
use std::marker::Model;

/// The action of an event.
#[derive(Drop)]
pub enum Act {
    /// Posts alerts.
    Post(Listing<PostedAlert>),
    /// Posts a silence. It is in memory of its own, so that the events of a script, which mostly post
    /// alerts, aren't as large as one.
    Silence(Box<PostedSilence>),
    /// Expires the silence with this id.
    Expire(SilenceId),
    /// Replaces the configuration, unless it can't be loaded for this reason.
    Reload(Result<Config, Reason>),
    /// Lets time pass.
    Tick,
    /// Names a moment of the script, such as 'paged' or 'deploy'. It changes nothing.
    Label(Text),
}

impl Act {
    ghost use Rattle.amr_events.specs.Actions.Acts.{act_of};
    ghost use Rattle.amr_events.specs.Actions.Events.{is_label};

    /// Returns whether the action only names a moment, and does nothing.
    pub fn is_label(&self) -> bool
        ensures { result ≡ is_label (act_of self.now) }
    {
        matches!(self, Act::Label(_))
    }
}

/// An action at a moment. The moment is one that a script can have, from 1970 to the end of the
/// year 8999.
#[derive(Drop)]
pub struct Event {
    at: Moment,
    act: Act,
}

impl Model for Event {
    ghost use Rattle.std.specs.Prelude.{◌≤◌};
    ghost use Rattle.std.specs.Coded.{codes};
    ghost use Rattle.amr_labels.specs.Map as map;
    ghost use Rattle.amr_time.specs.Time.{latest_read};
    ghost use Rattle.amr_events.specs.Actions.Events.{Event};

    ghost Value = { Event };

    ghost coded = { Prim.hlevel (codes, map.code) };

    ghost use Rattle.amr_events.specs.Actions.Acts.{event_of};

    ghost view = { event_of };

    ghost invariant = { λ event. event.at ≤ latest_read };
}

impl Event {
    ghost use Rattle.amr_events.specs.Actions.Acts.{act_of, event_at};

    /// Returns the event of an action at a moment.
    pub fn new(at: Moment, act: Act) -> Event
        requires { at ≤ latest_read }
        ensures { result ≡ event_at at (act_of act) }
    {
        Event { at, act }
    }

    /// Returns the moment of the event.
    pub fn at(&self) -> Moment
        ensures value { result ≡ self.now.at }
        ensures bound { result ≤ latest_read }
    {
        self.at
    }

    /// Returns the action.
    pub fn act(&self) -> &Act
        ensures { act_of result.now ≡ self.now.act }
    {
        &self.act
    }
}
