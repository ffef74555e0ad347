//! Paths in a JSON value, and how they are written in errors. A path is written only if it is
//! needed, so reading a good value takes no memory for paths.
ghost use Rattle.std.specs.Prelude.{◌≡◌, [], OnOk, string_bytes};
ghost use Rattle.amr_config.specs.Read.Paths.{path_text};
ghost use Rattle.amr_config.specs.Read.Answers.{IsFault};

use crate::read::error::{ConfigError, Refusal};
use amr_labels::Text;
use std::alloc::{AllocError, Global};

/// The path of a value, from the top.
#[derive(Drop)]
pub(crate) enum ValuePath<'a> {
    Top,
    Member(&'a ValuePath<'a>, &'a str),
    Item(&'a ValuePath<'a>, usize),
}

impl ValuePath<'_> {
    /// Appends the path to a text, which is empty at first.
    fn write(&self, out: &mut String) -> Result<(), AllocError>
        requires { string_bytes out.old ≡ [] }
        ensures { OnOk result (string_bytes out.new ≡ path_text self.now) }
    {
        match self {
            ValuePath::Top => Ok(()),
            ValuePath::Member(path, key) => {
                path.write(out)?;
                if !out.is_empty() {
                    out.push('.')?;
                }
                out.push_str(key)
            }
            ValuePath::Item(path, index) => {
                path.write(out)?;
                write!(out, "[{index}]")
            }
        }
    }

    /// Returns the error that the value at this path is faulty, or that memory ran out.
    pub(crate) fn faulty(&self, alloc: Global) -> ConfigError
        ensures { IsFault result (path_text self.now) }
    {
        let mut path = String::new(alloc);
        if self.write(&mut path).is_err() {
            return ConfigError::Memory;
        }
        match Text::from_str(alloc, path.as_str()) {
            Ok(path) => ConfigError::Refused(Refusal::BadConfig { path }),
            Err(_) => ConfigError::Memory,
        }
    }
}
