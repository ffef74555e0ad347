//! Which of the moves from a state only set a group timer. The moves up to a moment are the first
//! of those up to a later one, whatever the event is. So a session notes them at each position of
//! its cursor, and makes them faster if it passes an event again or tries another one there.
ghost use Rattle.std.specs.Prelude.{◌≡◌, false, [], get_or, OnOk, OnErr};
ghost use Rattle.amr_engine.specs.QuietMoves.{with_move_noted};

use std::alloc::{AllocError, Global};
use std::marker::Model;

/// The most moves that are noted from a state. Those after them are worked out again, so that what
/// is noted of an event of a million moves stays small.
const MOST_NOTED: usize = 10_000;

/// For each of the first moves from a state, whether it is known to set a group timer and to change
/// nothing else. Contracts see the list.
#[derive(Drop)]
pub struct QuietMoves {
    moves: Vec<bool>,
}

impl Model for QuietMoves {
    ghost use Rattle.std.specs.Prelude.{List, Bool};
    ghost use Rattle.std.specs.Coded.{codes};

    ghost Value = { List Bool };

    ghost coded = { Prim.hlevel codes };

    ghost view = { λ quiet. quiet.moves.items };
}

impl QuietMoves {
    /// Returns an empty list, with no move.
    pub fn new(alloc: Global) -> QuietMoves
        ensures { result ≡ [] }
    {
        QuietMoves {
            moves: Vec::new(alloc),
        }
    }

    /// Returns whether a move is known to only set a group timer; `made` counts the moves before
    /// it.
    pub(crate) fn is_quiet(&self, made: usize) -> bool
        ensures { result ≡ get_or self.now made false }
    {
        match self.moves.get(made) {
            Some(quiet) => *quiet,
            None => false,
        }
    }

    /// Notes of the next move whether it only sets a group timer, unless it was noted before or
    /// `MOST_NOTED` moves come before it.
    pub(crate) fn note(&mut self, made: usize, quiet: bool) -> Result<(), AllocError>
        ensures ok { OnOk result (self.new ≡ with_move_noted made quiet self.old) }
        ensures err { OnErr result (self.new ≡ self.old) }
    {
        if made == self.moves.len() && made < MOST_NOTED {
            self.moves.push(quiet)?;
        }
        Ok(())
    }
}
