//! The label sets that can be the sources of inhibition rules. `alert_table.rt` keeps them, so that
//! inhibition looks only at the alerts that match a rule's source matchers and agree with the
//! target on the labels in `equal`. Which of them mutes the target is decided in `amr_rules`.
ghost use Rattle.std.specs.Prelude.{◌≡◌, ◌<◌, ◌+◌, ◌++◌, ◌∷◌, ◌↔◌, ◌==◌, [], false, length, bit_or, IsTrue, IfOk, IfSome, OnOk, OnErr};
ghost use Rattle.std.specs.Option.{option_copied};
ghost use Rattle.amr_labels.specs.Matcher.Matchers.{all_hold};
ghost use Rattle.amr_labels.specs.Matcher.ValueBits.{required_bits};
ghost use Rattle.amr_engine.specs.Indexes.RuleSources.{bits_of, ListsSide, ListsAgreeing, IsSideOf, IsPut, IsListedToo, ListsSame};

use crate::indexes::label_values::LabelValues;
use amr_config::stated::InhibitRule;
use amr_labels::matcher::{MatchCache, Matchers, required_bits, value_bits};
use amr_labels::{LabelMap, Labels, Text};
use amr_tables::Keyed;
use std::alloc::{AllocError, Global};
use std::collections::BTreeMap;
use std::marker::Model;

/// How many label sets all sides list together before no more are cached. The next event forgets
/// them. A list counts as `LIST` label sets more, and a side as `SIDE`, by the memory that they
/// take.
const MOST_LISTED: usize = 10_000_000;

const LIST: usize = 10;

const SIDE: usize = 25;

/// The source side of an inhibition rule: its source matchers, and the names in `equal`.
#[derive(PartialEq, Eq, PartialOrd, Ord, Drop)]
pub(crate) struct SourceSide {
    pub source: Matchers,
    pub equal: Vec<Text>,
}

/// What is cached of a side: of the first `covered` label sets, those that match it, under their
/// values of the labels in `equal`.
#[derive(Drop)]
pub(crate) struct CachedSide {
    pub side: SourceSide,
    pub covered: usize,
    pub sources: Keyed<LabelValues, LabelMap<()>>,
    /// How many label sets are listed.
    pub listed: usize,
}

/// A side that was filled: the number of its `CachedSide`, and how many label sets had come then.
#[derive(Clone, Copy)]
struct FilledSide {
    number: usize,
    covered: usize,
}

/// Label sets in the order in which they came, with the source sides that are cached of them. A
/// side is cached when it is first filled, and takes in the label sets that came since when it is
/// filled again. Contracts see the label sets.
#[derive(Drop)]
pub(crate) struct RuleSources {
    alloc: Global,
    answers: MatchCache,
    arrived: Vec<Labels>,
    /// The bits of the values of each of them, which show at once of most that a side doesn't match
    /// them.
    bits: Vec<u64>,
    numbers: BTreeMap<SourceSide, usize>,
    sides: Vec<CachedSide>,
    /// The side of each rule that was filled in this event, by the rule's index in the
    /// configuration. It saves look-ups, and no answer depends on it.
    filled: Vec<Option<FilledSide>>,
    /// How many label sets the sides list, with what lists and sides count as.
    listed: usize,
}

impl Model for RuleSources {
    ghost use Rattle.std.specs.Prelude.{◌≡◌, List};
    ghost use Rattle.std.specs.List.{All};
    ghost use Rattle.std.specs.Coded.{codes};
    ghost use Rattle.amr_labels.specs.Map as map;
    ghost use Rattle.amr_labels.specs.Labels.{LabelSet};
    ghost use Rattle.amr_engine.specs.Indexes.RuleSources.{ListsSide, bits_of};

    ghost Value = { List LabelSet };

    ghost coded = { Prim.hlevel (codes, map.code) };

    ghost view = { λ s. s.arrived.items };

    ghost invariant = { λ s. All (ListsSide s.arrived.items) s.sides.items
        × (s.bits.items ≡ bits_of s.arrived.items) };
}

impl RuleSources {
    /// Starts without label sets and without sides.
    pub(crate) fn new(alloc: Global) -> RuleSources
        ensures { result ≡ [] }
    {
        RuleSources {
            alloc,
            answers: MatchCache::new(alloc),
            arrived: Vec::new(alloc),
            bits: Vec::new(alloc),
            numbers: BTreeMap::new(alloc),
            sides: Vec::new(alloc),
            filled: Vec::new(alloc),
            listed: 0,
        }
    }

    /// Adds a label set. No side has it before it is filled again.
    pub(crate) fn add(&mut self, labels: Labels) -> Result<(), AllocError>
        ensures ok { OnOk result (self.new ≡ self.old ++ labels ∷ []) }
        ensures err { OnErr result (self.new ≡ self.old) }
    {
        let bits = value_bits(&labels);
        self.bits.reserve(1)?;
        self.arrived.push(labels)?;
        self.bits.push_reserved(bits);
        Ok(())
    }

    /// Returns the label sets that match a rule's source matchers and agree with a target on the
    /// labels in `equal`; if none does, the second option may be `None`. Returns `None` if the
    /// rule's side isn't cached, or not of all label sets.
    pub(crate) fn agreeing(
        &self,
        index: usize,
        rule: &InhibitRule,
        target: &Labels,
    ) -> Result<Option<Option<&LabelMap<()>>>, AllocError>
        ensures { IfOk result (λ cached. IfSome cached (λ found.
            ListsAgreeing rule.now target.now self.now (option_copied found))) }
    {
        let side = self.cached(index, rule)?;
        let Some(cached) = side else {
            return Ok(None);
        };
        if cached.covered < self.arrived.len() {
            return Ok(None);
        }
        if cached.sources.next_number() == 0 {
            return Ok(Some(None));
        }
        let values = LabelValues::of(self.alloc, rule.equal.as_slice(), target)?;
        Ok(Some(cached.sources.get(&values)))
    }

    /// Takes in all label sets at the source side of the rule at an index of the configuration, so
    /// that `agreeing` answers for it. It does nothing if the sides list many label sets by now,
    /// and forgets them all if there is no room.
    pub(crate) fn cache(&mut self, index: usize, rule: &InhibitRule)
        ensures { self.new ≡ self.old }
    {
        if self.is_filled(index) || self.listed >= MOST_LISTED {
            return;
        }
        if self.cache_side(index, rule).is_err() {
            self.forget_sides();
        }
    }

    /// Forgets which rules' sides were filled, since other rules may be at their indexes from now
    /// on. If the sides list too many label sets, it forgets them too.
    pub(crate) fn forget_indexes(&mut self)
        ensures { self.new ≡ self.old }
    {
        self.filled.clear();
        if self.listed >= MOST_LISTED {
            self.forget_sides();
        }
    }

    /// Forgets all sides.
    fn forget_sides(&mut self)
        ensures { self.new ≡ self.old }
    {
        self.numbers.clear();
        self.sides.clear();
        self.filled.clear();
        self.listed = 0;
    }

    /// Takes in all label sets at the source side of the rule at an index, and notes that it did.
    fn cache_side(&mut self, index: usize, rule: &InhibitRule) -> Result<(), AllocError>
        ensures { self.new ≡ self.old }
    {
        let number = self.number_of(rule)?;
        self.list_all(number)?;
        self.note_filled(index, number)
    }

    /// Returns whether the side of the rule at an index was filled, and no label set came since.
    fn is_filled(&self, index: usize) -> bool {
        match self.filled.get(index) {
            Some(Some(filled)) => filled.covered == self.arrived.len(),
            _ => false,
        }
    }

    /// Notes that the side with this number is that of the rule at an index, and is filled.
    fn note_filled(&mut self, index: usize, number: usize) -> Result<(), AllocError>
        ensures { self.new ≡ self.old }
    {
        if self.filled.len() <= index {
            self.filled.resize(index.saturating_add(1), None)?;
        }
        let covered = self.arrived.len();
        if let Some(filled) = self.filled.get_mut(index) {
            *filled = Some(FilledSide { number, covered });
        }
        Ok(())
    }

    /// Takes in all label sets at the side with this number.
    fn list_all(&mut self, number: usize) -> Result<(), AllocError>
        ensures { self.new ≡ self.old }
    {
        if number < self.sides.len() {
            let more = list_all(
                self.alloc,
                &mut self.answers,
                &mut self.sides[number],
                self.arrived.as_slice(),
                self.bits.as_slice(),
            )?;
            self.listed = self.listed.saturating_add(more);
        }
        Ok(())
    }

    /// Returns what is cached of the side of the rule at an index. If it was filled in this event,
    /// it isn't looked for.
    fn cached(&self, index: usize, rule: &InhibitRule) -> Result<Option<&CachedSide>, AllocError>
        ensures side { IfOk result (λ found. IfSome found (λ cached.
            IsSideOf cached.now.side rule.now)) }
        ensures lists { IfOk result (λ found. IfSome found (λ cached.
            ListsSide self.now cached.now)) }
    {
        if let Some(Some(filled)) = self.filled.get(index) {
            return Ok(self.cached_at(filled.number, rule));
        }
        let side = side_of(self.alloc, rule)?;
        match self.numbers.get(&side) {
            None => Ok(None),
            Some(number) => Ok(self.cached_at(*number, rule)),
        }
    }

    /// Returns what is cached of the side with a number, if it is the rule's.
    fn cached_at(&self, number: usize, rule: &InhibitRule) -> Option<&CachedSide>
        ensures side { IfSome result (λ cached. IsSideOf cached.now.side rule.now) }
        ensures lists { IfSome result (λ cached. ListsSide self.now cached.now) }
    {
        if number >= self.sides.len() {
            return None;
        }
        let cached = &self.sides[number];
        if is_side_of(&cached.side, rule) {
            Some(cached)
        } else {
            None
        }
    }

    /// Returns the number of a rule's side. It is added if it isn't cached.
    fn number_of(&mut self, rule: &InhibitRule) -> Result<usize, AllocError>
        ensures { self.new ≡ self.old }
    {
        let side = side_of(self.alloc, rule)?;
        match self.numbers.get(&side) {
            Some(number) => Ok(*number),
            None => self.add_side(side, rule),
        }
    }

    /// Adds a rule's side, of which nothing is cached yet, and returns its number.
    fn add_side(&mut self, side: SourceSide, rule: &InhibitRule) -> Result<usize, AllocError>
        ensures { self.new ≡ self.old }
    {
        let number = self.sides.len();
        let cached = CachedSide {
            side: side_of(self.alloc, rule)?,
            covered: 0,
            sources: Keyed::new(self.alloc),
            listed: 0,
        };
        self.listed = self.listed.saturating_add(SIDE);
        self.sides.push(cached)?;
        self.numbers.insert(side, number)?;
        Ok(number)
    }
}

/// Returns whether a side is the source side of a rule.
fn is_side_of(side: &SourceSide, rule: &InhibitRule) -> bool
    ensures { IsTrue result ↔ IsSideOf side.now rule.now }
{
    side.source == rule.source && side.equal.as_slice() == rule.equal.as_slice()
}

/// Returns the source side of a rule.
fn side_of(alloc: Global, rule: &InhibitRule) -> Result<SourceSide, AllocError>
    ensures source { IfOk result (λ side. side.source ≡ rule.now.source) }
    ensures equal { IfOk result (λ side. side.equal.items ≡ rule.now.equal) }
{
    let mut equal = Vec::new(alloc);
    for name in rule.equal.as_slice() {
        equal.push(name.clone()?)?;
    }
    Ok(SourceSide {
        source: rule.source.clone()?,
        equal,
    })
}

/// Takes in at a side those of the label sets that it hasn't seen, given the bits of their values.
/// Returns how much more it lists then. If memory runs out, it has seen some of them.
fn list_all(
    alloc: Global,
    answers: &mut MatchCache,
    cached: &mut CachedSide,
    arrived: &[Labels],
    bits: &[u64],
) -> Result<usize, AllocError>
    requires lists { ListsSide arrived.now cached.old }
    requires bits { bits.now ≡ bits_of arrived.now }
    ensures { ListsSide arrived.now cached.new }
{
    let before = size_of(cached);
    let required = required_bits(cached.side.source.as_slice());
    while cached.covered < arrived.len() {
        list_next(alloc, answers, cached, required, arrived, bits)?;
    }
    Ok(size_of(cached).saturating_sub(before))
}

/// Returns how many label sets a side lists, with what its lists count as.
fn size_of(cached: &CachedSide) -> usize {
    let lists = cached.sources.next_number().saturating_mul(LIST);
    cached.listed.saturating_add(lists)
}

/// Takes in at a side the first of the label sets that it hasn't seen, given the bits that its
/// matchers ask for and those of the label sets' values.
#[tactic(auto, using(crate::proofs::IndexesLemmas::Sources::unmatched))]
fn list_next(
    alloc: Global,
    answers: &mut MatchCache,
    cached: &mut CachedSide,
    required: u64,
    arrived: &[Labels],
    bits: &[u64],
) -> Result<(), AllocError>
    requires lists { ListsSide arrived.now cached.old }
    requires left { cached.old.covered < length arrived.now }
    requires required { required ≡ required_bits cached.old.side.source }
    requires bits { bits.now ≡ bits_of arrived.now }
    ensures lists { ListsSide arrived.now cached.new }
    ensures side { cached.new.side ≡ cached.old.side }
    ensures covered { OnOk result (cached.new.covered ≡ cached.old.covered + 1) }
{
    let number = cached.covered;
    let may_match = has_all(bits[number], required);
    list_source(alloc, answers, cached, &arrived[number], may_match)?;
    cached.covered += 1;
    Ok(())
}

/// Returns whether bits have all those that are required.
fn has_all(bits: u64, required: u64) -> bool
    ensures { result ≡ (bit_or bits required == bits) }
{
    bits | required == bits
}

/// Lists a label set at a side if it matches the side. It asks the matchers only if it may.
fn list_source(
    alloc: Global,
    answers: &mut MatchCache,
    cached: &mut CachedSide,
    labels: &Labels,
    may_match: bool,
) -> Result<(), AllocError>
    requires { may_match ≡ false → all_hold cached.old.side.source labels.now ≡ false }
    ensures side { cached.new.side ≡ cached.old.side }
    ensures covered { cached.new.covered ≡ cached.old.covered }
    ensures listed { OnOk result (IsPut labels.now cached.old cached.new) }
    ensures err { OnErr result (ListsSame cached.old.sources cached.new.sources) }
{
    if !may_match {
        return Ok(());
    }
    if !cached.side.source.matches_all(answers, labels)? {
        return Ok(());
    }
    let values = LabelValues::of(alloc, cached.side.equal.as_slice(), labels)?;
    list_under(alloc, &mut cached.sources, &values, labels)?;
    cached.listed = cached.listed.saturating_add(1);
    Ok(())
}

/// Lists a label set under values, too.
fn list_under(
    alloc: Global,
    sources: &mut Keyed<LabelValues, LabelMap<()>>,
    values: &LabelValues,
    labels: &Labels,
) -> Result<(), AllocError>
    ensures ok { OnOk result (IsListedToo values.now labels.now sources.old sources.new) }
    ensures err { OnErr result (ListsSame sources.old sources.new) }
{
    let labels = labels.clone()?;
    let number = sources.make_place(values.clone()?)?;
    let mut former = None;
    sources.swap_at(number, &mut former);
    let mut listed = former.unwrap_or(LabelMap::new(alloc));
    let inserted = listed.insert(labels, ());
    sources.swap_at(number, &mut Some(listed));
    inserted
}
