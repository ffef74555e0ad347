//! The header line of a script, which states its version. Only version 2 has one.
ghost use Rattle.std.specs.Prelude.{◌≡◌, IfOk, false};
ghost use Rattle.std.specs.Option.{option_map_or};
ghost use Rattle.serde_json.specs.View.{view};
ghost use Rattle.amr_events.specs.Versions.{has_one_member as has_one, is_two as is_two_value, states_version_two as states_two, is_header as is_header_line};

use crate::error::LineError;
use crate::line::json;
use serde_json::Value;
use std::alloc::{AllocError, Global};

/// Returns whether a line states version 2: it is an object with exactly the key `v`, and the
/// integer 2 under it.
#[tactic(auto, unfolding(crate::specs::Versions::is_header))]
pub(crate) fn is_header(alloc: Global, line: &[u8]) -> Result<bool, AllocError>
    ensures { IfOk result (λ stated. stated ≡ is_header_line line.now) }
{
    match json(alloc, line) {
        Ok(value) => Ok(states_version_two(&value)),
        Err(LineError::Faulty) => Ok(false),
        Err(LineError::Memory) => Err(AllocError),
    }
}

/// Returns whether the value is an object with exactly the key `v`, and the integer 2 under it.
#[tactic(auto, unfolding(crate::specs::Versions::states_version_two))]
fn states_version_two(value: &Value) -> bool
    ensures { result ≡ states_two (view value.now) }
{
    match value.get("v") {
        Some(version) => has_one_member(value) && is_two(version),
        None => false,
    }
}

/// Returns whether the value is an object with one member.
#[tactic(auto, using(crate::proofs::Counts::counted, std::proofs::lemmas::Bool::Decides::nat_tests))]
fn has_one_member(value: &Value) -> bool
    ensures { result ≡ has_one (view value.now) }
{
    match value.as_object() {
        Some(members) => members.len() == 1,
        None => false,
    }
}

/// Returns whether the value is the integer 2.
fn is_two(value: &Value) -> bool
    ensures { result ≡ is_two_value (view value.now) }
{
    match value.as_u64() {
        Some(number) => number == 2,
        None => false,
    }
}
