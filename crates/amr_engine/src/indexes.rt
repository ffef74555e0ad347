//! What is cached of label sets: the inhibition rules whose sources they can be, and when the silences
//! that match one are active, with the table of the silences. The state has one of each.

mod cached_periods;
mod label_values;
mod rule_source;
mod silence_change;
mod silence_table;

pub(crate) use rule_source::RuleSources;
pub use silence_table::SilenceTable;
