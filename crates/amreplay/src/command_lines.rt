//! The command lines of a session: holding a line while it is read, and parsing it. `commands`
//! executes what is parsed; nothing here knows the session.

mod command;
mod digits;
mod line;
mod parts;

pub use command::{Command, Move, ParsedLine, Query};
pub use line::{Content, LONGEST, Line};
