//! The commands that move the cursor or try an event: `step`, `back`, `seek`, `seek-time` and
//! `trial`. If memory runs out for the output, the cursor goes back, so that a refused command
//! changes nothing. `moves_of` counts timers that fired; `moved` and `Moves` are about the cursor.
ghost use Rattle.std.specs.Prelude.{◌≡◌, ◌+◌, ◌<◌, ◌≤◌, ◌^◌, IfOk, drop, map, length, string_bytes};
ghost use Rattle.std.specs.List.{sum_by};
ghost use Rattle.amr_engine.specs.Outcomes.{outcome_view};
ghost use Rattle.amr_engine.specs.Events.{outcome_of};
ghost use Rattle.amr_replay.specs.Session.{outcomes_passed};
ghost use Rattle.amreplay.specs.Commands.Replies.{incident_of, state_in, numbered_lines, moves_in, passing_text, tried_lines};
ghost use Rattle.amreplay.specs.Commands.Answer.{Moves, AnsweredBy};
ghost use Rattle.amreplay.specs.declared.command_lines.command.ParsedLine.TheVariants.{Asks};
ghost use Rattle.amreplay.specs.declared.command_lines.command.Move.TheVariants.{Step, Back, Seek, SeekTime};
ghost use Rattle.amreplay.specs.declared.command_lines.command.Command.TheVariants as command;

use crate::command_lines::Move;
use crate::commands::answer::{Answer, Refusal};
use crate::lines::{Word, moves_text, push_event_lines};
use amr_engine::Outcome;
use amr_events::actions::Event;
use amr_replay::Session;
use amr_time::Moment;
use std::alloc::{AllocError, Global};

/// Executes `trial`, which tries an event and changes nothing.
#[tactic(auto, unfolding(crate::specs::Commands::Replies::reply_to))]
pub(crate) fn trial(alloc: Global, session: &mut Session, event: &Event) -> Answer
    ensures kept { incident_of session.new ≡ incident_of session.old }
    ensures answered { AnsweredBy session.old session.new (Asks (command.Trial event.now)) result }
{
    match tried_text(alloc, session, event) {
        Ok(text) => Answer::Built(text),
        Err(_) => Answer::Refused(Word::Trial, Refusal::Memory),
    }
}

/// Returns the output of a trial of an event.
fn tried_text(alloc: Global, session: &mut Session, event: &Event) -> Result<String, AllocError>
    ensures same { session.new ≡ session.old }
    ensures text { IfOk result (λ text. string_bytes text
        ≡ tried_lines session.old.cursor event.now
        (outcome_of (state_in (incident_of session.old) session.old.cursor) event.now)) }
{
    let cursor = session.cursor();
    let outcome = session.trial(event)?;
    let mut text = String::new(alloc);
    push_event_lines(&mut text, 0, event, &outcome)?;
    let moves = moves_of(&outcome);
    text.push_str(moves_text(alloc, Word::Trial, cursor, moves)?.as_str())?;
    Ok(text)
}

/// Executes a command that moves the cursor.
pub(crate) fn move_cursor(alloc: Global, session: &mut Session, movement: Move) -> Answer
    ensures kept { incident_of session.new ≡ incident_of session.old }
    ensures answered { AnsweredBy session.old session.new (Asks (command.Move movement)) result }
{
    match movement {
        Move::Step => step(alloc, session),
        Move::Back => back(session),
        Move::Seek(to) => seek(alloc, session, to),
        Move::SeekTime(at) => seek_time(alloc, session, at),
    }
}

/// Executes `seek-time`, which moves the cursor after the first events that are all at or before a
/// moment.
#[tactic(auto, unfolding(crate::specs::Commands::Replies::reply_to))]
fn seek_time(alloc: Global, session: &mut Session, at: Moment) -> Answer
    ensures kept { incident_of session.new ≡ incident_of session.old }
    ensures answered { AnsweredBy session.old session.new (Asks (command.Move (SeekTime at)))
        result }
{
    let from = session.cursor();
    match session.seek_time(at) {
        Ok(outcomes) => moved(alloc, session, Word::SeekTime, from, outcomes.as_slice()),
        Err(_) => Answer::Refused(Word::SeekTime, Refusal::Memory),
    }
}

/// Executes `seek`, which moves the cursor to `to` events from the start.
#[tactic(auto, unfolding(crate::specs::Commands::Replies::reply_to))]
fn seek(alloc: Global, session: &mut Session, to: usize) -> Answer
    ensures kept { incident_of session.new ≡ incident_of session.old }
    ensures answered { AnsweredBy session.old session.new (Asks (command.Move (Seek to))) result }
{
    let from = session.cursor();
    if session.events() < to {
        return Answer::Refused(Word::Seek, Refusal::OutOfRange);
    }
    match session.seek(to) {
        Ok(outcomes) => moved(alloc, session, Word::Seek, from, outcomes.as_slice()),
        Err(_) => Answer::Refused(Word::Seek, Refusal::Memory),
    }
}

/// Executes `back`, which undoes the last event. It takes no memory.
#[tactic(auto, unfolding(crate::specs::Commands::Replies::reply_to))]
fn back(session: &mut Session) -> Answer
    ensures kept { incident_of session.new ≡ incident_of session.old }
    ensures answered { AnsweredBy session.old session.new (Asks (command.Move Back)) result }
{
    if session.cursor() == 0 {
        return Answer::Refused(Word::Back, Refusal::AtStart);
    }
    match session.back() {
        Ok(()) => Answer::WentBack,
        Err(_) => Answer::Refused(Word::Back, Refusal::AtStart),
    }
}

/// Executes `step`, which passes the next event.
#[tactic(auto, using(crate::proofs::CommandsLemmas::EventsPassed::step_passes), unfolding(crate::specs::Commands::Replies::reply_to))]
fn step(alloc: Global, session: &mut Session) -> Answer
    ensures kept { incident_of session.new ≡ incident_of session.old }
    ensures answered { AnsweredBy session.old session.new (Asks (command.Move Step)) result }
{
    let from = session.cursor();
    if from == session.events() {
        return Answer::Refused(Word::Step, Refusal::AtEnd);
    }
    match session.step() {
        Ok(outcome) => moved(alloc, session, Word::Step, from, &[outcome]),
        Err(_) => Answer::Refused(Word::Step, Refusal::Memory),
    }
}

/// Returns the answer to a command that moved the cursor from `from`. If memory runs out for its
/// output, moves the cursor back, which takes no memory.
#[tactic(auto, using(crate::proofs::CommandsLemmas::EventsPassed::moved_back))]
fn moved(
    alloc: Global,
    session: &mut Session,
    word: Word,
    from: usize,
    outcomes: &[Outcome],
) -> Answer
    requires { map outcome_view outcomes.now
        ≡ outcomes_passed session.old.config session.old.events from session.old.cursor }
    ensures kept { incident_of session.new ≡ incident_of session.old }
    ensures moved { Moves (incident_of session.old) from word session.old.cursor session.new.cursor
        result }
{
    let to = session.cursor();
    if to <= from {
        return Answer::SoughtBack(word);
    }
    match passed_text(alloc, session, word, from, outcomes) {
        Ok(text) => Answer::Built(text),
        Err(_) => {
            drop(session.seek(from));
            Answer::Refused(word, Refusal::Memory)
        }
    }
}

/// Returns the output of a command that passed the events from `from` to the cursor.
fn passed_text(
    alloc: Global,
    session: &Session,
    word: Word,
    from: usize,
    outcomes: &[Outcome],
) -> Result<String, AllocError>
    requires within { from + length outcomes.now ≤ length session.now.events }
    requires fits { from + length outcomes.now < 2 ^ 64 }
    ensures { IfOk result (λ text. string_bytes text
        ≡ passing_text session.now.events from word session.now.cursor
        (map outcome_view outcomes.now)) }
{
    let mut text = numbered_text(alloc, session, from, outcomes)?;
    let moves = sum_of_moves(outcomes)?;
    text.push_str(moves_text(alloc, word, session.cursor(), moves)?.as_str())?;
    Ok(text)
}

/// Returns the lines of events, given their outcomes; `passed` is how many events come before them.
#[tactic(auto, using(crate::proofs::CommandsLemmas::EventsPassed::numbered_none))]
fn numbered_text(
    alloc: Global,
    session: &Session,
    passed: usize,
    outcomes: &[Outcome],
) -> Result<String, AllocError>
    requires within { passed + length outcomes.now ≤ length session.now.events }
    requires fits { passed + length outcomes.now < 2 ^ 64 }
    ensures { IfOk result (λ text. string_bytes text
        ≡ numbered_lines (passed + 1) (drop passed session.now.events)
        (map outcome_view outcomes.now)) }
{
    let mut text = String::new(alloc);
    let mut index = passed;
    for outcome in outcomes {
        let event = session.event(index);
        index += 1;
        push_event_lines(&mut text, index as u64, event, outcome)?;
    }
    Ok(text)
}

/// Returns the sum of the moves. A sum that doesn't fit a `usize` counts as out of memory.
fn sum_of_moves(outcomes: &[Outcome]) -> Result<usize, AllocError>
    ensures { IfOk result (λ sum. sum ≡ sum_by moves_in (map outcome_view outcomes.now)) }
{
    let mut sum = 0usize;
    for outcome in outcomes {
        sum = sum.checked_add(moves_of(outcome)).ok_or(AllocError)?;
    }
    Ok(sum)
}

/// Returns how many moves an event made. A refused event made none.
fn moves_of(outcome: &Outcome) -> usize
    ensures { result ≡ moves_in (outcome_view outcome.now) }
{
    match outcome {
        Outcome::Accepted {
            moves,
            notes: _,
            skipped: _,
        } => *moves,
        Outcome::Refused(_) => 0,
    }
}
