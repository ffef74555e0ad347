//! Tables whose places keep values apart from keys, the journal of what is displaced in them, and
//! numbers with moments and in groups. The state is made of them. Nothing here knows alerts or routes.
#![tactic(auto)]

mod earliest;
mod grouped;
mod heap;
mod journal;
mod key;
mod keyed;
mod numbers;
mod places;
mod schedule;
mod values;

pub use earliest::Earliest;
pub use grouped::Grouped;
pub use journal::Journal;
pub use key::Key;
pub use keyed::Keyed;
pub use places::make_place;
pub use schedule::{NumberedMoment, Schedule};
pub use values::Values;
