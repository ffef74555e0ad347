//! Patterns without their groups.
ghost use Rattle.std.specs.Prelude.{◌≡◌, map, IfOk};
ghost use Rattle.regex_hir.specs.Meaning.{meaning};
ghost use Rattle.amr_labels.specs.Matcher.Searches.{without_groups};

use regex_hir::Hir;
use std::alloc::{AllocError, Global};

/// Copies a pattern, with what each group holds in its place.
#[cycle(ungrouped)]
pub(crate) fn ungrouped(alloc: Global, hir: &Hir) -> Result<Hir, AllocError>
    ensures { IfOk result (λ bare. meaning bare ≡ without_groups (meaning hir.now)) }
{
    match hir {
        Hir::Empty => Ok(Hir::Empty),
        Hir::Literal(bytes) => Ok(Hir::Literal(Vec::from_slice(alloc, bytes)?)),
        Hir::Bytes(class) => Ok(Hir::Bytes(class.clone()?)),
        Hir::Chars(class) => Ok(Hir::Chars(class.clone()?)),
        Hir::Look(look) => Ok(Hir::Look(*look)),
        Hir::Repetition {
            min,
            max,
            greedy,
            sub,
        } => Ok(Hir::Repetition {
            min: *min,
            max: *max,
            greedy: *greedy,
            sub: Box::new(alloc, ungrouped(alloc, sub)?)?,
        }),
        Hir::Capture { sub, .. } => ungrouped(alloc, sub),
        Hir::Concat(subs) => Ok(Hir::Concat(all_ungrouped(alloc, subs)?)),
        Hir::Alternation(subs) => Ok(Hir::Alternation(all_ungrouped(alloc, subs)?)),
    }
}

/// Copies patterns in the same way.
#[cycle(ungrouped)]
fn all_ungrouped(alloc: Global, subs: &[Hir]) -> Result<Vec<Hir>, AllocError>
    ensures { IfOk result (λ bare. map meaning bare.items
        ≡ map (λ sub. without_groups (meaning sub)) subs.now) }
{
    let mut bare = Vec::new(alloc);
    for i in 0..subs.len() {
        bare.push(ungrouped(alloc, &subs[i])?)?;
    }
    Ok(bare)
}
