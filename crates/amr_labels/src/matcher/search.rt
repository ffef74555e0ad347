//! What searches for a pattern. A search of `regex` is prepared anew for each value, and has room for
//! what each group captures, for which nobody asks. So a small pattern is built once more, without its
//! groups: in a short value its states are walked, which takes no preparation. One with many groups
//! is searched for without them.
ghost use Rattle.std.specs.Prelude.{◌≡◌, IfOk, IfSome, is_some};
ghost use Rattle.regex.specs.Patterns.{find_str};
ghost use Rattle.regex.specs.Strings.{regex_pattern};
ghost use Rattle.regex_meta.specs.Programs.{pattern_of};
ghost use Rattle.amr_labels.specs.Labels.{Text};
ghost use Rattle.amr_labels.specs.Matcher.Patterns.{anchored, IsBuiltFrom};
ghost use Rattle.amr_labels.specs.Matcher.Searches.{IsFoundAs, built_pattern, search_pattern};

use crate::matcher::ungrouped::ungrouped;
use regex::{Matcher, Regex};
use regex_meta::{Program, Searcher};
use regex_syntax::Config;
use regex_vm::Backtracker;
use std::alloc::{AllocError, Global};

/// A pattern keeps its groups up to this product of their number and its limit in bytes, unless it is
/// small. A search takes up to three bytes for each.
const MOST_WITH_GROUPS: usize = 1 << 22;

/// The limit in bytes up to which a pattern is small, as most are. To build it again takes as long as
/// ten searches.
const SMALL: usize = 16 << 10;

/// How many pairs of a state and a place in a value are walked at most. A walk over all of so many
/// takes as long as a few searches.
const MOST_WALKED: usize = 1 << 12;

/// A pattern that was built.
pub(crate) enum Built {
    /// As `regex` builds it.
    Whole(Regex),
    /// Without its groups.
    Bare(Box<Program>),
}

/// A search for such a pattern.
#[derive(Drop)]
pub(crate) enum Search<'p> {
    Whole(Matcher<'p>),
    Bare(Searcher<'p>),
}

// It is written out so that what drops a pattern, also in other crates, calls this alone.
impl Drop for Built {
    fn drop(self) {
        match self {
            Built::Whole(_regex) => {}
            Built::Bare(_program) => {}
        }
    }
}

impl Built {
    /// Keeps what `regex` built with this limit, or builds it without its groups if it is small or a
    /// search would take much memory for them.
    #[tactic(auto, using(crate::proofs::MatcherLemmas::Finds::built_is_found))]
    pub(crate) fn new(alloc: Global, regex: Regex, limit: usize) -> Result<Built, AllocError>
        ensures { IfOk result (λ built. (pattern : Text) → IsBuiltFrom regex pattern
            → IsFoundAs (built_pattern built) pattern) }
    {
        let groups = regex.captures_len().saturating_sub(1);
        if limit > SMALL && groups.saturating_mul(limit) <= MOST_WITH_GROUPS {
            return Ok(Built::Whole(regex));
        }
        match bare(alloc, regex.as_str(), limit)? {
            Some(program) => Ok(Built::Bare(program)),
            None => Ok(Built::Whole(regex)),
        }
    }

    /// Prepares a search.
    pub(crate) fn search(&self, alloc: Global) -> Result<Search<'_>, AllocError>
        ensures { IfOk result (λ search. search_pattern search ≡ built_pattern self.now) }
    {
        match self {
            Built::Whole(regex) => Ok(Search::Whole(regex.matcher(alloc)?)),
            Built::Bare(program) => Ok(Search::Bare(Searcher::new(alloc, program)?)),
        }
    }

    /// Returns whether the pattern is found in the value.
    pub(crate) fn is_match(&self, alloc: Global, value: &str) -> Result<bool, AllocError>
        ensures { IfOk result (λ found. found
            ≡ is_some (find_str (built_pattern self.now) value.now 0)) }
    {
        if let Built::Bare(program) = self {
            if let Some(found) = walked(alloc, program, value) {
                return Ok(found);
            }
        }
        let mut search = self.search(alloc)?;
        Ok(search.is_match(value))
    }
}

/// Returns whether what is searched for is found in a value, or `None` if it would take long to walk
/// its states, or if what is found begins inside a character.
fn walked(alloc: Global, program: &Program, value: &str) -> Option<bool>
    ensures { IfSome result (λ found. found
        ≡ is_some (find_str (pattern_of program.now) value.now 0)) }
{
    let nfa = &program.dfa.nfa;
    let bytes = value.as_bytes();
    let end = bytes.len();
    if end.saturating_mul(nfa.states.len()) > MOST_WALKED {
        return None;
    }
    let Ok(found) = Backtracker::new(alloc).find(nfa, bytes, 0, end, end, &mut []) else {
        return None;
    };
    match found {
        None => Some(false),
        Some((from, _)) if value.is_char_boundary(from) => Some(true),
        Some(_) => None,
    }
}

/// Builds what a text is read as, without its groups. Returns `None` if that fails: then the
/// pattern keeps them.
fn bare(alloc: Global, source: &str, limit: usize) -> Result<Option<Box<Program>>, AllocError>
    ensures { IfOk result (λ built. IfSome built (λ program. (pattern : Text)
        → source.now ≡ anchored pattern → IsFoundAs (pattern_of program.value) pattern)) }
{
    let Ok(parsed) = regex_syntax::parse(alloc, source, &Config::default()) else {
        return Ok(None);
    };
    let hir = ungrouped(alloc, &parsed.hir)?;
    // The whole match counts as a group.
    let Ok(program) = Program::new(alloc, hir, 1, limit) else {
        return Ok(None);
    };
    Ok(Some(Box::new(alloc, program)?))
}

impl<'p> Search<'p> {
    /// Returns whether the pattern is found in the value.
    pub(crate) fn is_match(&mut self, value: &str) -> bool
        ensures found { result ≡ is_some (find_str (search_pattern self.old) value.now 0) }
        ensures same { search_pattern self.new ≡ search_pattern self.old }
    {
        match self {
            Search::Whole(matcher) => matcher.is_match(value),
            Search::Bare(searcher) => is_found(searcher, value),
        }
    }
}

/// Returns whether what is searched for begins between two characters of the value.
#[tactic(auto, using(crate::proofs::MatcherLemmas::BetweenCharacters::goes_on))]
fn is_found(searcher: &mut Searcher<'_>, value: &str) -> bool
    ensures found { result ≡ is_some (find_str (pattern_of searcher.old.program.now) value.now 0) }
    ensures same { searcher.new.program.now ≡ searcher.old.program.now }
{
    let mut at = 0;
    loop {
        let Some((from, _)) = searcher.find(value.as_bytes(), at) else {
            return false;
        };
        if value.is_char_boundary(from) {
            return true;
        }
        at = from + 1;
    }
}
