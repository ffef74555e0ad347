//! The commands that only ask: those that list what the state holds, and `cursor`. None of them
//! moves the cursor or changes the state, though the session may cache what it works out.
ghost use Rattle.std.specs.Prelude.{◌≡◌, ◌++◌, IfOk};
ghost use Rattle.amreplay.specs.declared.command_lines.command.ParsedLine.TheVariants.{Asks};
ghost use Rattle.amreplay.specs.declared.command_lines.command.Command.TheVariants as command;
ghost use Rattle.amreplay.specs.Commands.Replies.{lines_of, listing_text};
ghost use Rattle.amreplay.specs.Commands.Answer.{AnsweredBy};

use crate::command_lines::Query;
use crate::commands::answer::{Answer, Refusal};
use crate::lines::{
    alert_lines, cursor_text, group_lines, log_lines, notes_text, silence_lines, verdicts_text,
};
use amr_replay::Session;
use std::alloc::{AllocError, Global};

/// Returns the lines that a query lists, without its last line.
fn query_lines(alloc: Global, session: &Session, query: &Query) -> Result<Vec<u8>, AllocError>
    ensures { IfOk result (λ lines. lines.items ≡ lines_of query.now session.now.state) }
{
    let state = session.state();
    match query {
        Query::Explain(labels) => {
            Ok(verdicts_text(alloc, session.explain(labels)?.as_slice())?.into_bytes())
        }
        Query::Alerts => alert_lines(alloc, state),
        Query::Silences => silence_lines(alloc, state),
        Query::Groups => group_lines(alloc, session.groups()?.as_slice()),
        Query::Log => log_lines(alloc, state),
        Query::Transcript => Ok(notes_text(alloc, state.notes())?.into_bytes()),
    }
}

/// Returns the lines that a query lists, and its last line with the cursor.
fn listed_lines(
    alloc: Global,
    session: &Session,
    cursor: usize,
    query: &Query,
) -> Result<Vec<u8>, AllocError>
    ensures { IfOk result (λ lines. lines.items ≡ listing_text cursor query.now session.now.state) }
{
    let mut lines = query_lines(alloc, session, query)?;
    lines.extend_from_slice(cursor_text(alloc, query.word(), cursor)?.as_bytes())?;
    Ok(lines)
}

/// Works out what makes the answer to a query fast.
fn prepare(session: &mut Session, query: &Query) -> Result<(), AllocError>
    ensures { session.new ≡ session.old }
{
    match query {
        Query::Explain(labels) => session.cache_sources(labels),
        _ => Ok(()),
    }
}

/// Returns what `listed_lines` returns, after preparing the session for it.
fn prepared_lines(
    alloc: Global,
    session: &mut Session,
    cursor: usize,
    query: &Query,
) -> Result<Vec<u8>, AllocError>
    ensures lines { IfOk result (λ lines. lines.items
        ≡ listing_text cursor query.now session.old.state) }
    ensures same { session.new ≡ session.old }
{
    prepare(session, query)?;
    listed_lines(alloc, session, cursor, query)
}

/// Executes a query.
#[tactic(auto, unfolding(crate::specs::Commands::Replies::reply_to))]
pub(crate) fn list(alloc: Global, session: &mut Session, query: &Query) -> Answer
    ensures same { session.new ≡ session.old }
    ensures answered { AnsweredBy session.old session.new (Asks (command.Query query.now)) result }
{
    let cursor = session.cursor();
    match prepared_lines(alloc, session, cursor, query) {
        Ok(lines) => Answer::Listed(lines),
        Err(_) => Answer::Refused(query.word(), Refusal::Memory),
    }
}

/// Executes `cursor`, which prints the cursor, the number of events, and the clock. It takes no
/// memory.
#[tactic(auto, unfolding(crate::specs::Commands::Replies::reply_to))]
pub(crate) fn position(session: &Session) -> Answer
    ensures { AnsweredBy session.now session.now (Asks command.Cursor) result }
{
    Answer::Position(session.cursor(), session.events(), session.state().moment())
}
