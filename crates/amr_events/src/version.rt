//! The version of a script.

/// The version of a script. In version 2 a line may be a label.
#[derive(Clone, Copy, Debug, PartialEq, Eq)]
pub enum Version {
    One,
    Two,
}
