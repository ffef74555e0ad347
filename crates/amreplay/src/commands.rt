//! The commands of a session: executing them, and reading and answering them over any reader and
//! writer. `program` opens the session and calls `converse`.

mod answer;
mod conversation;
mod dispatch;
mod input;
pub mod laws;
mod navigation;
mod queries;

pub use conversation::converse;
