//! The labels of a posted alert, with the label set that they make. An incident posts the same
//! labels again and again, so `TextCache` shares them between posts, and a post makes no label set
//! anew.
ghost use Rattle.std.specs.Prelude.{◌≡◌, ◌≢◌, true, false, IfOk};
ghost use Rattle.std.specs.Option.{option_copied};
ghost use Rattle.amr_labels.specs.Labels.{labels_of_pairs};
ghost use Rattle.amr_labels.specs.Lent.{lent_texts};
ghost use Rattle.amr_events.specs.Posts.StatedLabels.{stated_pairs, IsOwnSet};

use amr_labels::{Labels, Shared, Text, are_stated};
use std::alloc::{AllocError, Global};
use std::marker::Model;

/// Names and values with their label set, which is `None` if it would have a label with an empty
/// name.
#[derive(Drop)]
struct LabeledPairs {
    pairs: Vec<(Text, Text)>,
    labels: Option<Labels>,
}

impl Model for LabeledPairs {
    ghost use Rattle.std.specs.Prelude.{◌≡◌, List, ℕ};
    ghost use Rattle.std.specs.Coded.{codes};
    ghost use Rattle.amr_labels.specs.Labels.{labels_of_pairs};

    ghost Value = { List (List ℕ × List ℕ) };

    ghost coded = { Prim.hlevel codes };

    ghost view = { λ labeled. labeled.pairs.items };

    ghost invariant = { λ labeled. labeled.labels ≡ labels_of_pairs labeled.pairs.items };
}

/// The names and values as they are posted.
#[derive(Drop)]
enum StatedLabels {
    /// Those of a label set, in the order of the names, as almost all posts have them.
    OfSet(Labels),
    /// Others, in which a value or a name is empty: readers give the names in order, each once.
    Others(Shared<LabeledPairs>),
}

/// The labels of a posted alert: the names with their values, as they are posted. Clones share
/// them.
#[derive(Drop)]
pub struct PostedLabels {
    stated: StatedLabels,
}

impl Model for PostedLabels {
    ghost use Rattle.std.specs.Prelude.{List, ℕ};
    ghost use Rattle.std.specs.Coded.{codes};
    ghost use Rattle.amr_events.specs.Posts.StatedLabels.{stated_pairs, IsOwnSet};

    ghost Value = { List (List ℕ × List ℕ) };

    ghost coded = { Prim.hlevel codes };

    ghost view = { λ posted. stated_pairs posted.stated };

    ghost invariant = { λ posted. IsOwnSet posted.stated };
}

impl LabeledPairs {
    /// Makes the label set of the names and values.
    fn new(alloc: Global, pairs: Vec<(Text, Text)>) -> Result<LabeledPairs, AllocError>
        ensures { IfOk result (λ labeled. labeled ≡ pairs.items) }
    {
        let labels = Labels::of_pairs(alloc, pairs.as_slice())?;
        Ok(LabeledPairs { pairs, labels })
    }

    /// Returns the names and values.
    fn pairs(&self) -> &[(Text, Text)]
        ensures { result.now ≡ self.now }
    {
        self.pairs.as_slice()
    }

    /// Returns the label set, if no label that it would have has an empty name.
    fn label_set(&self) -> Option<&Labels>
        ensures { option_copied result ≡ labels_of_pairs self.now }
    {
        self.labels.as_ref()
    }
}

impl StatedLabels {
    /// Keeps names and values as a label set if they are those of one.
    fn new(alloc: Global, labeled: LabeledPairs) -> Result<StatedLabels, AllocError>
        ensures pairs { IfOk result (λ stated. stated_pairs stated ≡ labeled) }
        ensures own { IfOk result IsOwnSet }
    {
        match labeled.label_set() {
            Some(labels) if labels.has_entries(lent(alloc, labeled.pairs())?.as_slice()) => {
                Ok(StatedLabels::OfSet(labels.clone()?))
            }
            _ => Ok(StatedLabels::Others(Shared::new(alloc, labeled)?)),
        }
    }
}

impl PostedLabels {
    /// Makes posted labels of names and values.
    pub fn new(alloc: Global, pairs: Vec<(Text, Text)>) -> Result<PostedLabels, AllocError>
        ensures { IfOk result (λ posted. posted ≡ pairs.items) }
    {
        let labeled = LabeledPairs::new(alloc, pairs)?;
        let stated = StatedLabels::new(alloc, labeled)?;
        Ok(PostedLabels { stated })
    }

    /// Returns the label set: of a repeated name the last value counts, and labels with an empty
    /// value are dropped. Returns `None` if a name that is left is empty.
    pub fn label_set(&self) -> Option<&Labels>
        ensures { option_copied result ≡ labels_of_pairs self.now }
    {
        match &self.stated {
            StatedLabels::OfSet(labels) => Some(labels),
            StatedLabels::Others(labeled) => labeled.get().label_set(),
        }
    }

    /// Returns whether these are the names and values.
    pub(crate) fn are(&self, stated: &[(&str, &str)]) -> bool
        ensures equal { result ≡ true → self.now ≡ lent_texts stated.now }
        ensures other { result ≡ false → self.now ≢ lent_texts stated.now }
    {
        match &self.stated {
            StatedLabels::OfSet(labels) => labels.has_entries(stated),
            StatedLabels::Others(labeled) => are_stated(labeled.get().pairs(), stated),
        }
    }
}

impl Clone for PostedLabels {
    ghost is_clone = { λ a b. b ≡ a };

    fn clone(&self) -> Result<PostedLabels, AllocError> {
        let stated = match &self.stated {
            StatedLabels::OfSet(labels) => StatedLabels::OfSet(labels.clone()?),
            StatedLabels::Others(labeled) => StatedLabels::Others(labeled.clone()?),
        };
        Ok(PostedLabels { stated })
    }
}

/// Lends names and texts.
pub(crate) fn lent<'a>(
    alloc: Global,
    texts: &'a [(Text, Text)],
) -> Result<Vec<(&'a str, &'a str)>, AllocError>
    ensures { IfOk result (λ lent. lent_texts lent.items ≡ texts.now) }
{
    let mut lent = Vec::with_capacity(alloc, texts.len())?;
    for (name, text) in texts {
        lent.push((name.as_str(), text.as_str()))?;
    }
    Ok(lent)
}
