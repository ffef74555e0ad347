//! Sorting the matchers of a route, for its path in the notification log's key. A reload that only
//! reorders matchers then keeps the log's entries.
ghost use Rattle.std.specs.Prelude.{◌≡◌, IfOk};
ghost use Rattle.amr_config.specs.Routing.{sorted_matchers};

use amr_labels::matcher::{Matcher, Matchers};
use std::alloc::{AllocError, Global};

/// Returns copies of the matchers, in their order.
fn copies(alloc: Global, matchers: &[Matcher]) -> Result<Vec<Matcher>, AllocError>
    ensures { IfOk result (λ copies. copies.items ≡ matchers.now) }
{
    let mut copies = Vec::with_capacity(alloc, matchers.len())?;
    for matcher in matchers {
        copies.push(matcher.clone()?)?;
    }
    Ok(copies)
}

/// Returns the matchers sorted by name, value and operator.
#[tactic(auto, using(crate::proofs::Sorting::sorted_is))]
pub(crate) fn sorted(alloc: Global, matchers: &Matchers) -> Result<Matchers, AllocError>
    ensures { IfOk result (λ made. made ≡ sorted_matchers matchers.now) }
{
    let mut sorted = copies(alloc, matchers.as_slice())?;
    sorted.sort()?;
    Matchers::from_vec(alloc, sorted)
}
