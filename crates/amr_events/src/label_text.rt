//! Reading a label set from JSON. Only the command `explain` needs it; posted alerts keep their
//! labels as they are until they are filled in.
ghost use Rattle.amr_events.specs.Answers.{Reads};
ghost use Rattle.amr_events.specs.LabelTexts.{labels_in};

use crate::error::LineError;
use crate::line::json;
use crate::shapes::texts;
use amr_labels::Labels;
use std::alloc::Global;

/// Reads a label set from a JSON object of texts (`LabelSet` of Alertmanager's API v2). If a name
/// is repeated, the last value counts, and a label with an empty value is dropped. It fails with
/// any other JSON, and if the name of a label that is left is empty.
#[tactic(auto, unfolding(crate::specs::LabelTexts::labels_in))]
pub fn read_labels(alloc: Global, text: &[u8]) -> Result<Labels, LineError>
    ensures { Reads (λ labels. labels) result (labels_in text.now) }
{
    let object = json(alloc, text)?;
    let pairs = texts(alloc, &object)?;
    Labels::of_pairs(alloc, pairs.as_slice())?.ok_or(LineError::Faulty)
}
