//! The silences by id, with what is cached of the label sets that flushes asked about: the periods
//! of the silences that match them. `store.rt` changes the table and asks it which silence mutes.
ghost use Rattle.std.specs.Prelude.{◌≡◌, ◌≤◌, [], map, Some, is_some, IfOk, IfSome};
ghost use Rattle.std.specs.Ordering.{nat_cmp};
ghost use Rattle.amr_labels.specs.Map as map;
ghost use Rattle.amr_rules.specs.Muting.{is_silenced, silencer_of};
ghost use Rattle.amr_rules.specs.SilencePeriods.{silence_periods, is_active_in, unexpired_silences, IsLeastId};
ghost use Rattle.amr_rules.specs.Silences.{Silences};
ghost use Rattle.amr_tables.specs.Numbered.{map_of, number_of, KeepsPlaces, SamePlaces};

use crate::indexes::cached_periods::{CachedPeriods, is_caught_up};
use crate::indexes::silence_change::SilenceChange;
use amr_events::posts::SilenceId;
use amr_labels::matcher::{MatchCache, value_bits};
use amr_labels::{Labels, Listing, Shared};
use amr_rules::{
    Alert, Silence, SilencePeriod, periods_of_each, silence_periods, silenced_by, silenced_in,
    unexpired,
};
use amr_tables::{Keyed, make_place};
use amr_time::Moment;
use std::alloc::{AllocError, Global};
use std::marker::Model;

/// How many label sets the silences are asked for at once at most. It bounds the memory that the
/// answers take.
const MOST_AT_ONCE: usize = 1024;

/// How many label sets the silences are asked for at once at least. Fewer are left to be asked for
/// one by one: cached answers, and walks over short values, are faster than preparing the search of
/// each pattern.
const FEWEST_AT_ONCE: usize = 64;

/// How many changes of silences are kept at most. When one more comes, all that is cached of label
/// sets is forgotten.
const MOST_CHANGES: usize = 1000;

/// The silences by id. It caches of label sets when silences that match them are active, and keeps
/// which silences changed since.
#[derive(Drop)]
pub struct SilenceTable {
    alloc: Global,
    silences: Keyed<SilenceId, Silence>,
    /// What the patterns of the silences' matchers answered.
    answers: MatchCache,
    /// What is cached of label sets, by their numbers among the stored alerts.
    cached: Vec<Option<CachedPeriods>>,
    /// The changes of silences since the table began to cache, the latest last.
    changes: Vec<SilenceChange>,
    /// The number of label sets that the silences were asked ahead for, the first ones.
    asked_ahead: usize,
    /// The silences that are left to ask, if they were listed since the last change.
    unexpired: Option<Unexpired>,
}

/// The silences that aren't expired at a moment. Those that are expired then don't mute later, and
/// mostly they are many more.
#[derive(Drop)]
pub(crate) struct Unexpired {
    pub(crate) from: Moment,
    pub(crate) listed: Vec<(SilenceId, Silence)>,
}

ghost use Rattle.amr_engine.specs.Indexes.CachedSilences.{AreCached, AreNoted, AreUnexpired, SameOthers, change_of};

impl Model for SilenceTable {
    ghost use Rattle.std.specs.Prelude.{ℕ};
    ghost use Rattle.std.specs.Coded.{codes};
    ghost use Rattle.amr_labels.specs.Map as map;
    ghost use Rattle.amr_rules.specs.declared.silence.Silence.{Silence};
    ghost use Rattle.std.specs.Ordering.{nat_cmp};
    ghost use Rattle.amr_tables.specs.Numbered.{Numbered, map_of};
    ghost use Rattle.amr_engine.specs.Indexes.CachedSilences.{AreCached, AreNoted, AreUnexpired};

    ghost Value = { Numbered ℕ Silence };

    ghost coded = { Prim.hlevel (codes, map.code) };

    ghost view = { λ t. t.silences };

    ghost invariant = { λ t.
        AreCached (map_of nat_cmp t.silences) t.changes.items t.cached.items
        × AreUnexpired (map_of nat_cmp t.silences) t.unexpired
        × AreNoted (map_of nat_cmp t.silences) t.changes.items };
}

impl SilenceTable {
    /// Builds a table without silences.
    pub fn new(alloc: Global) -> SilenceTable
        ensures shown { map_of nat_cmp result ≡ map.empty }
    {
        SilenceTable {
            alloc,
            silences: Keyed::new(alloc),
            answers: MatchCache::new(alloc),
            cached: Vec::new(alloc),
            changes: Vec::new(alloc),
            asked_ahead: 0,
            unexpired: None,
        }
    }

    /// Returns the silences by id.
    pub fn silences(&self) -> &Keyed<SilenceId, Silence>
        ensures { result.now ≡ self.now }
    {
        &self.silences
    }

    /// Returns the least id of a silence that mutes labels at a moment, or `None` if no silence
    /// does. It asks the silences' matchers only for labels of which it caches nothing at their
    /// number, and lists no silences if there never was one.
    #[tactic(auto, using(std::proofs::lemmas::Grind::common_steps, crate::proofs::IndexesLemmas::CachedSilences::no_silencer, amr_rules::proofs::MutingLaws::named))]
    pub fn silenced_by(
        &self,
        at: Moment,
        number: Option<usize>,
        labels: &Labels,
    ) -> Result<Option<SilenceId>, AllocError>
        ensures named { IfOk result (λ found. found
            ≡ silencer_of at labels.now (map_of nat_cmp self.now)) }
        ensures exactly { IfOk result (λ found. is_silenced (map_of nat_cmp self.now) at labels.now
            ≡ is_some found) }
    {
        if self.silences.next_number() == 0 {
            return Ok(None);
        }
        match self.periods(at, number, labels) {
            Some(periods) => Ok(silenced_in(at, periods)),
            None => silenced_by(self.alloc, &self.silences, at, labels),
        }
    }

    /// Works out when silences that match the label set with a number are active from a moment on, and
    /// caches it. It does nothing if that is cached or no silence is stored. If it isn't and many
    /// label sets are new, it first asks for those, which the next flushes most likely meet: the
    /// search of each pattern is then prepared once for all. If there is no room, it forgets what it
    /// caches of label sets.
    pub fn cache(
        &mut self,
        at: Moment,
        number: usize,
        labels: &Labels,
        alerts: &Keyed<Labels, Shared<Alert>>,
    )
        ensures { self.new ≡ self.old }
    {
        if self.cache_missing(at, number, labels, alerts).is_err() {
            self.forget();
        }
    }

    /// Forgets what it caches of label sets.
    fn forget(&mut self)
        ensures { self.new ≡ self.old }
    {
        forget(
            self.alloc,
            &mut self.cached,
            &mut self.changes,
            &mut self.asked_ahead,
        );
    }

    /// Works out when silences that match a label set are active, and caches it, if it isn't cached.
    /// It may do so for others that are new.
    fn cache_missing(
        &mut self,
        at: Moment,
        number: usize,
        labels: &Labels,
        alerts: &Keyed<Labels, Shared<Alert>>,
    ) -> Result<(), AllocError>
        ensures { self.new ≡ self.old }
    {
        if self.silences.values().next().is_none() || self.is_cached(at, number, labels)? {
            return Ok(());
        }
        if alerts.next_number().saturating_sub(self.asked_ahead) >= FEWEST_AT_ONCE {
            self.ask_ahead(at, alerts)?;
            if self.is_cached(at, number, labels)? {
                return Ok(());
            }
        }
        self.cache_one(at, number, labels)
    }

    /// Works out the same for the label sets that got their numbers since it last did, up to as many
    /// as are asked for at once, unless few of them are missing.
    fn ask_ahead(
        &mut self,
        at: Moment,
        alerts: &Keyed<Labels, Shared<Alert>>,
    ) -> Result<(), AllocError>
        ensures { self.new ≡ self.old }
    {
        let first = self.asked_ahead;
        let end = alerts.next_number().min(first.saturating_add(MOST_AT_ONCE));
        let label_sets = label_sets_from(self.alloc, alerts, first, end)?;
        self.asked_ahead = end;
        if self.missing(at, first, label_sets.as_slice())? < FEWEST_AT_ONCE {
            return Ok(());
        }
        self.cache_many(at, first, label_sets.as_slice())
    }

    /// Returns of how many of the label sets with numbers from `first` on nothing is cached at a
    /// moment.
    fn missing(
        &mut self,
        at: Moment,
        first: usize,
        label_sets: &[Labels],
    ) -> Result<usize, AllocError>
        ensures { self.new ≡ self.old }
    {
        let mut missing: usize = 0;
        for (index, labels) in label_sets.iter().enumerate() {
            if !self.is_cached(at, first.saturating_add(index), labels)? {
                missing = missing.saturating_add(1);
            }
        }
        Ok(missing)
    }

    /// Returns whether it is cached of labels, at their number and from a moment on, when silences
    /// that match them are active. It first asks the silences that changed since that was cached.
    fn is_cached(&mut self, at: Moment, number: usize, labels: &Labels) -> Result<bool, AllocError>
        ensures { self.new ≡ self.old }
    {
        if number >= self.cached.len() {
            return Ok(false);
        }
        is_caught_up(
            &mut self.cached[number],
            &mut self.answers,
            &self.silences,
            self.changes.as_slice(),
            at,
            labels,
        )
    }

    /// Works out when silences that match a label set are active, and caches it. It asks only
    /// silences that aren't expired, keeps the list of them until a silence changes, and caches the
    /// answers of patterns.
    fn cache_one(&mut self, at: Moment, number: usize, labels: &Labels) -> Result<(), AllocError>
        ensures { self.new ≡ self.old }
    {
        let kept = self.unexpired_at(at)?;
        let listed = kept.listed.as_slice();
        let periods = silence_periods(self.alloc, &mut self.answers, listed, at, labels);
        self.unexpired = Some(kept);
        self.insert(at, number, labels, periods?)
    }

    /// Works out the same for many label sets, with numbers from `first` on. It prepares one search of
    /// each pattern for all.
    fn cache_many(
        &mut self,
        at: Moment,
        first: usize,
        label_sets: &[Labels],
    ) -> Result<(), AllocError>
        ensures { self.new ≡ self.old }
    {
        let kept = self.unexpired_at(at)?;
        let each = periods_of_each(self.alloc, kept.listed.as_slice(), at, label_sets);
        self.unexpired = Some(kept);
        self.insert_each(at, first, label_sets, each?)
    }

    /// Takes the list of the silences that aren't expired at a moment or weren't before. It makes a
    /// new list if there is none.
    fn unexpired_at(&mut self, at: Moment) -> Result<Unexpired, AllocError>
        ensures same { self.new ≡ self.old }
        ensures before { IfOk result (λ kept. kept.from ≤ at) }
        ensures listed { IfOk result (λ kept. kept.listed.items
            ≡ unexpired_silences kept.from (map_of nat_cmp self.old)) }
    {
        match self.unexpired.take() {
            Some(kept) if kept.from <= at => Ok(kept),
            _ => Ok(Unexpired {
                from: at,
                listed: unexpired(self.alloc, &self.silences, at)?,
            }),
        }
    }

    /// Caches for each of these label sets, with numbers from `first` on, when the silences that match
    /// it are active.
    fn insert_each(
        &mut self,
        at: Moment,
        first: usize,
        label_sets: &[Labels],
        each: Vec<Listing<SilencePeriod>>,
    ) -> Result<(), AllocError>
        requires { each.items ≡ map (λ labels. silence_periods at labels (map_of nat_cmp self.old))
            label_sets.now }
        ensures { self.new ≡ self.old }
    {
        for (index, periods) in each.into_iter().enumerate() {
            self.insert(at, first.saturating_add(index), &label_sets[index], periods)?;
        }
        Ok(())
    }

    /// Caches when the silences that match labels are active from a moment on, at their number.
    fn insert(
        &mut self,
        at: Moment,
        number: usize,
        labels: &Labels,
        periods: Listing<SilencePeriod>,
    ) -> Result<(), AllocError>
        requires { periods ≡ silence_periods at labels.now (map_of nat_cmp self.old) }
        ensures { self.new ≡ self.old }
    {
        let cached = CachedPeriods {
            labels: labels.clone()?,
            bits: value_bits(labels),
            from: at,
            version: self.changes.as_slice().len(),
            periods,
        };
        make_place(&mut self.cached, number)?;
        self.cached[number] = Some(cached);
        Ok(())
    }

    /// Returns what is cached of labels at their number, if it reaches back to a moment and no silence
    /// changed since: when the silences that match them are active.
    fn periods(
        &self,
        at: Moment,
        number: Option<usize>,
        labels: &Labels,
    ) -> Option<&[SilencePeriod]>
        ensures { IfSome result (λ periods. IsLeastId (is_active_in at periods.now)
            (silencer_of at labels.now (map_of nat_cmp self.now))) }
    {
        let version = self.changes.len();
        match self.cached.get(number?) {
            Some(Some(cached))
                if cached.from <= at && cached.version == version && cached.labels == *labels => {
                Some(cached.periods.as_slice())
            }
            _ => None,
        }
    }

    /// Returns the number of a silence's place. Makes the place if there is none, and room to note
    /// its next change.
    pub fn place(&mut self, id: &SilenceId) -> Result<usize, AllocError>
        ensures number { IfOk result (λ number. number_of nat_cmp self.new id.now ≡ Some number) }
        ensures shown { map_of nat_cmp self.new ≡ map_of nat_cmp self.old }
        ensures places { KeepsPlaces nat_cmp self.old self.new }
    {
        // Room for this change and for its undoing. Without room everything cached is forgotten.
        drop(self.changes.reserve(2));
        self.silences.make_place(*id)
    }

    /// Swaps the silence with this id, or `None` if there is none, with another, given the number of
    /// its place. It takes no memory.
    pub fn swap_at(&mut self, id: &SilenceId, number: usize, silence: &mut Option<Silence>)
        requires { number_of nat_cmp self.old id.now ≡ Some number }
        ensures former { silence.new ≡ map.get (map_of nat_cmp self.old) id.now }
        ensures shown { map_of nat_cmp self.new
            ≡ map.set (map_of nat_cmp self.old) id.now silence.old }
        ensures places { SamePlaces nat_cmp self.old self.new }
    {
        self.unexpired = None;
        let noted = SilenceChange::new(id, silence.as_ref());
        let asked = &mut self.asked_ahead;
        note_change(
            self.alloc,
            &mut self.cached,
            &mut self.changes,
            asked,
            noted,
        );
        self.silences.swap_at(number, silence);
    }
}

/// Notes that a silence changes. Forgets all that is cached of label sets if there have been many
/// changes, or if there is no room for one more. It takes no memory.
#[tactic(auto, using(crate::proofs::IndexesLemmas::CachedSilences::noted_more))]
fn note_change(
    alloc: Global,
    cached: &mut Vec<Option<CachedPeriods>>,
    changes: &mut Vec<SilenceChange>,
    asked_ahead: &mut usize,
    noted: SilenceChange,
)
    ensures cached { (before after : Silences) → SameOthers noted.id before after
        → AreCached before changes.old.items cached.old.items
        → AreCached after changes.new.items cached.new.items }
    ensures noted { (before after : Silences) → SameOthers noted.id before after
        → noted ≡ change_of noted.id (map.get after noted.id)
        → AreNoted before changes.old.items → AreNoted after changes.new.items }
{
    let count = changes.len();
    if count < MOST_CHANGES && count < changes.capacity() {
        changes.push_reserved(noted);
    } else {
        forget(alloc, cached, changes, asked_ahead);
    }
}

/// Forgets all that is cached of label sets.
fn forget(
    alloc: Global,
    cached: &mut Vec<Option<CachedPeriods>>,
    changes: &mut Vec<SilenceChange>,
    asked_ahead: &mut usize,
)
    ensures cached { cached.new.items ≡ [] }
    ensures changes { changes.new.items ≡ [] }
{
    *cached = Vec::new(alloc);
    changes.clear();
    *asked_ahead = 0;
}

/// Returns the label sets with numbers from `first` up to `end`.
fn label_sets_from(
    alloc: Global,
    alerts: &Keyed<Labels, Shared<Alert>>,
    first: usize,
    end: usize,
) -> Result<Vec<Labels>, AllocError> {
    let mut label_sets = Vec::new(alloc);
    for number in first..end {
        if let Some(labels) = alerts.key_at(number) {
            label_sets.push(labels.clone()?)?;
        }
    }
    Ok(label_sets)
}
