//! The printed lines, and writing them. `docs/FORMATS.md` has their shapes. Runs and sessions call
//! it; it decides nothing about alerts.

mod checked_reader;
mod checked_writer;
mod json_text;
mod last_lines;
mod lines;
mod listed_text;
mod listings;
mod notification_text;
mod plain;
mod strings;
mod verdicts;
mod word;

pub use checked_reader::{CheckedReader, ReadFailed};
pub use checked_writer::{CheckedWriter, WriteFailed, flush, write_parts, write_whole};
pub use last_lines::{
    cursor_text, moves_text, write_back, write_backward_seek, write_position, write_refused,
};
pub use lines::{notes_text, push_event_lines};
pub use listings::{alert_lines, group_lines, log_lines, silence_lines};
pub use verdicts::verdicts_text;
pub use word::{Word, word_text};
