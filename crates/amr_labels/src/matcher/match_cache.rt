//! What patterns were asked lately, and what they answered. Even a walk over a short value takes
//! longer than to find the answer again, so routes, rules and silences look here before they ask.
ghost use Rattle.std.specs.Prelude.{◌≡◌, true, IfOk, IfSome};
ghost use Rattle.std.specs.List.{All};
ghost use Rattle.amr_labels.specs.Matcher.Patterns.{pattern_matches};
ghost use Rattle.amr_labels.specs.Matcher.Questions.{IsAnswer};

use crate::Text;
use crate::matcher::pattern::Pattern;
use std::alloc::{AllocError, Global};
use std::hash::{FoldHasher, Hasher};
use std::marker::Model;
use std::mem;

/// How many buckets for answers there are at first. Each number of buckets is a power of two.
const FEWEST_BUCKETS: usize = 4096;

/// How many buckets there are at most.
const MOST_BUCKETS: usize = 262_144;

/// A cache of what patterns answered. Contracts see nothing of it.
#[derive(Drop)]
pub struct MatchCache {
    alloc: Global,
    /// Whether answers are cached.
    caches: bool,
    /// The latest answers, each in the bucket of its question. It is empty until one is cached.
    latest: Vec<Option<CachedMatch>>,
    /// How many answers others took the place of since there are so many buckets.
    replaced: usize,
}

/// A pattern's answer for a value.
#[derive(Drop)]
pub(crate) struct CachedMatch {
    pub(crate) value: Text,
    pub(crate) pattern: Text,
    pub(crate) found: bool,
    /// A hash of the question. Contracts don't see it.
    hash_value: u32,
}

impl Model for MatchCache {
    ghost use Rattle.std.specs.Prelude.{IfSome};
    ghost use Rattle.std.specs.List.{All};
    ghost use Rattle.amr_labels.specs.Matcher.Questions.{IsAnswer};

    ghost Value = { Unit {0} };

    ghost view = { λ answers. tt };

    ghost invariant = { λ answers. All (λ latest. IfSome latest IsAnswer) answers.latest.items };
}

impl MatchCache {
    /// Returns whether the pattern matches the whole value. It asks the pattern only if the
    /// answer isn't cached.
    pub fn matches(&mut self, pattern: &Pattern, value: &str) -> Result<bool, AllocError>
        ensures { IfOk result (λ found. found ≡ pattern_matches pattern.now value.now) }
    {
        let hash_value = question_hash(pattern, value);
        if let Some(found) = self.cached(pattern, value, hash_value) {
            return Ok(found);
        }
        let found = pattern.matches(self.alloc, value)?;
        // (without memory for it, the answer isn't cached)
        drop(self.note(pattern, value, hash_value, found));
        Ok(found)
    }

    /// Starts without answers.
    pub fn new(alloc: Global) -> MatchCache
        ensures { result ≡ tt }
    {
        MatchCache {
            alloc,
            caches: true,
            latest: Vec::new(alloc),
            replaced: 0,
        }
    }

    /// Starts without answers and never caches one, so that each pattern is asked each time.
    pub fn none(alloc: Global) -> MatchCache
        ensures { result ≡ tt }
    {
        MatchCache {
            alloc,
            caches: false,
            latest: Vec::new(alloc),
            replaced: 0,
        }
    }

    /// Returns the answer to a question, if it is cached.
    fn cached(&self, pattern: &Pattern, value: &str, hash_value: u32) -> Option<bool>
        ensures { IfSome result (λ found. found ≡ pattern_matches pattern.now value.now) }
    {
        let bucket = bucket_of(hash_value, self.latest.len());
        match self.latest.get(bucket) {
            Some(Some(answer)) if answer.is_to(pattern, value, hash_value) => Some(answer.found),
            _ => None,
        }
    }

    /// Caches an answer as the latest one in its bucket.
    fn note(
        &mut self,
        pattern: &Pattern,
        value: &str,
        hash_value: u32,
        found: bool,
    ) -> Result<(), AllocError>
        requires { found ≡ pattern_matches pattern.now value.now }
        ensures { self.new ≡ self.old }
    {
        if !self.caches {
            return Ok(());
        }
        let answer = CachedMatch {
            value: Text::from_str(self.alloc, value)?,
            pattern: pattern.text().clone()?,
            found,
            hash_value,
        };
        self.make_buckets()?;
        self.place(answer);
        Ok(())
    }

    /// Makes the first buckets, or four times as many once as many answers were replaced as there
    /// are buckets. The answers move to the new ones.
    fn make_buckets(&mut self) -> Result<(), AllocError>
        ensures { self.new ≡ self.old }
    {
        let buckets = self.latest.len();
        if buckets > 0 && (self.replaced < buckets || buckets >= MOST_BUCKETS) {
            return Ok(());
        }
        let more = buckets.saturating_mul(4);
        let wider = no_answers(self.alloc, more.clamp(FEWEST_BUCKETS, MOST_BUCKETS))?;
        let answers = mem::replace(&mut self.latest, wider);
        self.replaced = 0;
        self.place_all(answers);
        Ok(())
    }

    /// Puts each of these answers into its bucket.
    fn place_all(&mut self, answers: Vec<Option<CachedMatch>>)
        requires { All (λ latest. IfSome latest IsAnswer) answers.items }
        ensures { self.new ≡ self.old }
    {
        for answer in answers.into_iter().flatten() {
            self.place(answer);
        }
    }

    /// Puts an answer into its bucket, in place of the one there.
    fn place(&mut self, answer: CachedMatch)
        requires { IsAnswer answer }
        ensures { self.new ≡ self.old }
    {
        let bucket = bucket_of(answer.hash_value, self.latest.len());
        if bucket < self.latest.len() {
            if self.latest[bucket].is_some() {
                self.replaced = self.replaced.saturating_add(1);
            }
            self.latest[bucket] = Some(answer);
        }
    }
}

impl CachedMatch {
    /// Returns whether the answer is that of a pattern for a value. It compares texts only if the
    /// hashes are equal.
    fn is_to(&self, pattern: &Pattern, value: &str, hash_value: u32) -> bool
        ensures { result ≡ true → (self.now.value ≡ value.now) × (self.now.pattern ≡ pattern.now) }
    {
        self.hash_value == hash_value
            && self.value.as_str() == value
            && self.pattern.as_str() == pattern.text().as_str()
    }
}

/// Returns a hash of a question.
fn question_hash(pattern: &Pattern, value: &str) -> u32 {
    let mut hasher = FoldHasher::default();
    hasher.write_usize(pattern.hash_value());
    hasher.write(value.as_bytes());
    (hasher.finish() >> 32) as u32
}

/// Returns which of so many buckets has the latest answer to the question with this hash.
fn bucket_of(hash_value: u32, buckets: usize) -> usize {
    hash_value as usize & buckets.saturating_sub(1)
}

/// Returns so many buckets, without answers.
fn no_answers(alloc: Global, buckets: usize) -> Result<Vec<Option<CachedMatch>>, AllocError>
    ensures { IfOk result (λ none. All (λ latest. IfSome latest IsAnswer) none.items) }
{
    let mut none = Vec::with_capacity(alloc, buckets)?;
    for _bucket in 0..buckets {
        none.push(None)?;
    }
    Ok(none)
}
