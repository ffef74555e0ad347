//! The program, given its arguments and what its files hold: checks, runs and sessions. `main` calls
//! it; nothing here opens a file.

mod check;
mod input;
mod load;
mod run;
mod session;
mod words;

pub use check::check_config;
pub use input::read_config_file;
pub use load::{open_session, read_config};
pub use run::run_script;
pub use session::run_session;
pub use words::{Form, command_of};
