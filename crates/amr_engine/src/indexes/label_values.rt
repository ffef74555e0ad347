//! Values of the labels in `equal` of an inhibition rule, under which the rule's sources are
//! listed.
ghost use Rattle.std.specs.Prelude.{◌≡◌, IfOk};
ghost use Rattle.amr_labels.specs.Labels.{value_of};
ghost use Rattle.amr_engine.specs.Indexes.LabelValues.{values_cmp-IsAntisymmetric, label_values};

use amr_labels::{Exact, Labels, Listing, Text};
use amr_tables::Key;
use std::alloc::{AllocError, Global};
use std::marker::Model;

/// Values of labels, in the order of the labels' names in `equal`. Contracts see their list.
#[derive(PartialEq, Eq, PartialOrd, Ord, Hash, Drop)]
pub(crate) struct LabelValues {
    texts: Listing<Text>,
}

impl Model for LabelValues {
    ghost use Rattle.std.specs.Prelude.{List};
    ghost use Rattle.amr_labels.specs.Labels.{Text};

    ghost Value = { List Text };

    ghost view = { λ values. values.texts };

    ghost inverse = { λ texts. record { texts = texts } };
}

impl LabelValues {
    /// Returns the values of labels in a label set, an absent label being empty.
    pub(crate) fn of(
        alloc: Global,
        names: &[Text],
        labels: &Labels,
    ) -> Result<LabelValues, AllocError>
        ensures { IfOk result (λ values. values ≡ label_values names.now labels.now) }
    {
        let mut texts = Listing::new(alloc);
        for name in names {
            texts.push(label_value(alloc, name, labels)?)?;
        }
        Ok(LabelValues { texts })
    }
}

impl Clone for LabelValues {
    ghost is_clone = { λ a b. b ≡ a };

    fn clone(&self) -> Result<LabelValues, AllocError> {
        Ok(LabelValues {
            texts: self.texts.clone()?,
        })
    }
}

impl Exact for LabelValues {
    ghost exact = { λ x y same. same };
}

impl Key for LabelValues {
    ghost exact = { values_cmp-IsAntisymmetric };
}

/// Returns the value of a label in a label set, an absent label being empty.
fn label_value(alloc: Global, name: &Text, labels: &Labels) -> Result<Text, AllocError>
    ensures { IfOk result (λ value. value ≡ value_of labels.now name.now) }
{
    match labels.get(name.as_str()) {
        Some(value) => value.clone(),
        None => Text::from_str(alloc, ""),
    }
}
