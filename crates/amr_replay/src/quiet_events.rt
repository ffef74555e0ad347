//! What is noted of the moves from the state at each position of a session's cursor. A seek back
//! and forth, and trials at one position, make the same moves again, and this saves working them
//! out.
ghost use Rattle.std.specs.Prelude.{◌≡◌, [], List};
ghost use Rattle.amr_config.specs.Stated.Config.{Config};
ghost use Rattle.amr_events.specs.Actions.Events.{Event};
ghost use Rattle.amr_engine.specs.QuietMoves.{AreQuietMoves};
ghost use Rattle.amr_replay.specs.Session.{state_at};
ghost use Rattle.amr_replay.specs.QuietEvents.{AreNoted};

use amr_engine::QuietMoves;
use std::alloc::Global;
use std::marker::Model;
use std::mem;

/// What is noted of the moves from the state at each position of a cursor, from the start of the
/// script. It is no part of what a session shows.
#[derive(Drop)]
pub(crate) struct QuietEvents {
    alloc: Global,
    by_cursor: Vec<QuietMoves>,
}

impl Model for QuietEvents {
    ghost use Rattle.std.specs.Prelude.{List, Bool};
    ghost use Rattle.std.specs.Coded.{codes};

    ghost Value = { List (List Bool) };

    ghost coded = { Prim.hlevel codes };

    ghost view = { λ events. events.by_cursor.items };
}

impl QuietEvents {
    /// Returns a table with no position, which caches no move.
    pub(crate) fn new(alloc: Global) -> QuietEvents
        ensures { result ≡ [] }
    {
        QuietEvents {
            alloc,
            by_cursor: Vec::new(alloc),
        }
    }

    /// Takes out what is noted at a position of the cursor.
    pub(crate) fn take(&mut self, cursor: usize) -> QuietMoves
        ensures taken { (config : Config) (script : List Event) → AreNoted config script self.old
            → AreQuietMoves result (state_at config script cursor) }
        ensures left { (config : Config) (script : List Event) → AreNoted config script self.old
            → AreNoted config script self.new }
    {
        let nothing = QuietMoves::new(self.alloc);
        if cursor < self.by_cursor.len() {
            mem::replace(&mut self.by_cursor[cursor], nothing)
        } else {
            nothing
        }
    }

    /// Notes the moves from the state at a position of the cursor. It is forgotten if there is no
    /// memory for it, since that only costs time later.
    pub(crate) fn put(&mut self, cursor: usize, quiet: QuietMoves)
        ensures { (config : Config) (script : List Event) → AreNoted config script self.old
            → AreQuietMoves quiet (state_at config script cursor)
            → AreNoted config script self.new }
    {
        if cursor < self.by_cursor.len() {
            self.by_cursor[cursor] = quiet;
        } else if cursor == self.by_cursor.len() {
            let _forgotten = self.by_cursor.push(quiet);
        }
    }
}
