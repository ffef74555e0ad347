//! Patterns that were built before. Building a pattern takes far longer than finding it again, and
//! reloads and silences repeat patterns, so a script is read with one cache of them.
//!
//! A repetition such as `\w{30}` makes a short pattern large. So all patterns of a configuration, or
//! of a line of a script, share a room. Without it, a mebibyte of such patterns took half a minute
//! and twelve gigabytes. The lines of a script share a larger one, since its patterns stay for as
//! long as it does.
ghost use Rattle.std.specs.Prelude.{◌≡◌, ◌≤◌, ◌^◌, IfOk, IfErr};
ghost use Rattle.amr_labels.specs.Matcher.Patterns.{MayRefuse};
ghost use Rattle.amr_labels.specs.Matcher.MatcherRefusals.{RefusedOnlyIf};

use crate::matcher::error::MatcherError;
use crate::matcher::pattern::Pattern;
use crate::{Shared, Text};
use std::alloc::Global;
use std::collections::BTreeMap;
use std::marker::Model;

/// The most bytes that a pattern may take. It is the limit that `regex` has by itself.
const LARGEST: usize = 10 << 20;

/// The most bytes that the patterns of a configuration, or of a line of a script, may take together.
const ROOM: usize = 256 << 20;

/// The most bytes that the patterns of all lines of a script may take together.
const SCRIPT_ROOM: usize = 1 << 30;

/// How many limits are tried below the largest one. Each is four times the one before.
const SMALLER_LIMITS: u32 = 7;

/// Patterns by their texts. Contracts see nothing of them.
#[derive(Drop)]
pub struct Patterns {
    alloc: Global,
    built: BTreeMap<Text, Shared<Pattern>>,
    /// How many bytes more the patterns of this configuration or line may take.
    room: usize,
    /// How many bytes more the patterns of all lines may take.
    script_room: usize,
}

impl Model for Patterns {
    ghost use Rattle.amr_labels.specs.Matcher.Patterns.{AreUnderTheirTexts};

    ghost Value = { Unit {0} };

    ghost view = { λ patterns. tt };

    ghost invariant = { λ patterns. AreUnderTheirTexts patterns.built };
}

impl Patterns {
    /// Starts without patterns.
    pub fn new(alloc: Global) -> Patterns
        ensures { result ≡ tt }
    {
        Patterns {
            alloc,
            built: BTreeMap::new(alloc),
            room: ROOM,
            script_room: SCRIPT_ROOM,
        }
    }

    /// Gives the patterns of one more line of a script the room of a line.
    pub fn begin_line(&mut self)
        ensures { self.new ≡ tt }
    {
        self.room = ROOM;
    }

    /// Returns the pattern of a text. It builds one only if it has none yet.
    pub(crate) fn pattern(&mut self, text: Text) -> Result<Shared<Pattern>, MatcherError>
        ensures read { IfOk result (λ shared. shared ≡ text) }
        ensures refused { IfErr result (RefusedOnlyIf (MayRefuse text)) }
    {
        if let Some(cached) = self.built.get(&text) {
            return Ok(cached.clone()?);
        }
        self.build(text)
    }

    /// Builds a pattern, and keeps it.
    fn build(&mut self, text: Text) -> Result<Shared<Pattern>, MatcherError>
        ensures read { IfOk result (λ shared. shared ≡ text) }
        ensures refused { IfErr result (RefusedOnlyIf (MayRefuse text)) }
    {
        let pattern = self.build_in_room(&text)?;
        let shared = Shared::new(self.alloc, pattern)?;
        let kept = shared.clone()?;
        self.built.insert(text, kept)?;
        Ok(shared)
    }

    /// Builds a pattern, and takes its limit from both rooms, since `regex` doesn't say how large it
    /// is.
    fn build_in_room(&mut self, text: &Text) -> Result<Pattern, MatcherError>
        ensures read { IfOk result (λ pattern. pattern ≡ text.now) }
        ensures refused { IfErr result (RefusedOnlyIf (MayRefuse text.now)) }
    {
        let most = self.room.min(self.script_room).min(LARGEST);
        let limited = build_limited(self.alloc, text, most)?;
        self.room -= limited.limit;
        self.script_room -= limited.limit;
        Ok(limited.pattern)
    }
}

/// A pattern, and the limit in bytes with which it was built.
#[derive(Drop)]
struct Limited {
    pattern: Pattern,
    limit: usize,
}

/// Builds a pattern of at most so many bytes, with the least of a few limits that suffices.
fn build_limited(alloc: Global, text: &Text, most: usize) -> Result<Limited, MatcherError>
    requires { most ≤ 2 ^ 34 }
    ensures read { IfOk result (λ limited. limited.pattern ≡ text.now) }
    ensures limit { IfOk result (λ limited. limited.limit ≤ most) }
    ensures refused { IfErr result (RefusedOnlyIf (MayRefuse text.now)) }
{
    let mut limit = least_limit(text);
    for _smaller in 0..SMALLER_LIMITS {
        if limit >= most {
            break;
        }
        if let Some(pattern) = Pattern::within(alloc, text, limit)? {
            return Ok(Limited { pattern, limit });
        }
        limit = limit.saturating_mul(4);
    }
    match Pattern::within(alloc, text, most)? {
        Some(pattern) => Ok(Limited {
            pattern,
            limit: most,
        }),
        None => Err(MatcherError::BadPattern),
    }
}

/// Returns the least limit with which the pattern of a text is tried. Most patterns without classes
/// and repetitions take less. One class of Unicode, such as `\w`, takes more.
fn least_limit(text: &Text) -> usize {
    text.as_str()
        .len()
        .saturating_mul(32)
        .saturating_add(1 << 10)
}
