//! The paths of routes, which are part of the notification log's keys. Few log keys differ only in
//! the path, so paths are compared by their matchers, and have a hash of these.
ghost use Rattle.std.specs.Prelude.{◌≡◌, [], ◌∷◌, ◌++◌, IfOk};
ghost use Rattle.amr_config.specs.Paths.{path_hash, hash_below, hash_with};

use amr_labels::matcher::{Matcher, Matchers};
use amr_labels::{Exact, Listing, Shared, fnv_hash};
use std::alloc::{AllocError, Global};
use std::hash::{Hash, Hasher};
use std::marker::Model;

/// The matchers of each route from the root down to one. Contracts see the matchers. Clones share
/// them.
#[derive(Drop)]
#[derive_where(PartialEq, Eq, PartialOrd, Ord)]
pub struct RoutePath {
    matchers: Shared<Listing<Matchers>>,
    /// A hash of the matchers.
    #[derive_where(skip)]
    hash_value: usize,
}

impl Model for RoutePath {
    ghost use Rattle.std.specs.Prelude.{◌≡◌, List};
    ghost use Rattle.std.proofs.Common.{sym};
    ghost use Rattle.amr_labels.specs.Matcher.Matchers.{Matcher};
    ghost use Rattle.amr_config.specs.Paths.{path_hash};

    ghost Value = { List (List Matcher) };

    ghost view = { λ path. path.matchers };

    ghost invariant = { λ path. path.hash_value ≡ path_hash path.matchers };

    ghost inverse = { λ matchers. record { matchers = matchers; hash_value = path_hash matchers } };

    ghost inverse_ok = { λ path hashed. λ i. record { matchers = path.matchers; hash_value = sym hashed i } };
}

impl RoutePath {
    /// Makes the path of a root route with these matchers.
    #[tactic(auto, unfolding(crate::specs::Paths::path_hash))]
    pub fn root(alloc: Global, own: Matchers) -> Result<RoutePath, AllocError>
        ensures { IfOk result (λ path. path ≡ own ∷ []) }
    {
        let hash_value = hash_below(0, own.as_slice());
        let mut matchers = Listing::new(alloc);
        matchers.push(own)?;
        Ok(RoutePath {
            matchers: Shared::new(alloc, matchers)?,
            hash_value,
        })
    }

    /// Makes the path of a route with these matchers, below the route of this path.
    #[tactic(auto, using(crate::proofs::PathHashes::hash_more))]
    pub fn below(&self, alloc: Global, own: Matchers) -> Result<RoutePath, AllocError>
        ensures { IfOk result (λ path. path ≡ self.now ++ own ∷ []) }
    {
        let hash_value = hash_below(self.hash_value, own.as_slice());
        let mut matchers = self.get().clone()?;
        matchers.push(own)?;
        Ok(RoutePath {
            matchers: Shared::new(alloc, matchers)?,
            hash_value,
        })
    }

    /// Returns the matchers of each route.
    pub fn get(&self) -> &Listing<Matchers>
        ensures { result.now ≡ self.now }
    {
        self.matchers.get()
    }

    /// Returns a hash of the path.
    pub fn hash_value(&self) -> usize
        ensures { result ≡ path_hash self.now }
    {
        self.hash_value
    }
}

impl Clone for RoutePath {
    ghost is_clone = { λ a b. b ≡ a };

    fn clone(&self) -> Result<RoutePath, AllocError> {
        Ok(RoutePath {
            matchers: self.matchers.clone()?,
            hash_value: self.hash_value,
        })
    }
}

impl Exact for RoutePath {
    ghost exact = { λ x y same. same };
}

impl Hash for RoutePath {
    ghost use Rattle.std.specs.Hash as fed;
    ghost use Rattle.std.proofs.Common.{ap, sym, ◌∙◌};
    ghost use Rattle.std.proofs.lemmas.Map.Views.{tells_apart};
    ghost use Rattle.amr_config.specs.Paths.{path_hash, path_cmp-IsAntisymmetric, path_ties};

    ghost hash_input = { λ path. fed.usize (path_hash path) };

    ghost respects_eq = { λ x y h. ap (λ path. fed.usize (path_hash path)) (tells_apart path_cmp-IsAntisymmetric x y (sym (path_ties x y) ∙ h)) };

    fn hash<H: Hasher>(&self, state: &mut H) {
        state.write_usize(self.hash_value());
    }
}

/// Returns the number of a path, given that of the path above and the route's own matchers.
fn hash_below(above: usize, own: &[Matcher]) -> usize
    ensures { result ≡ hash_below above own.now }
{
    let mut hash_value = above.wrapping_mul(31).wrapping_add(1);
    for matcher in own {
        hash_value = hash_with(hash_value, matcher);
    }
    hash_value
}

/// Returns the number with one more matcher, whose operator doesn't count.
fn hash_with(hash_value: usize, matcher: &Matcher) -> usize
    ensures { result ≡ hash_with hash_value matcher.now }
{
    hash_value
        .wrapping_mul(31)
        .wrapping_add(fnv_hash(matcher.name().as_str()))
        .wrapping_mul(31)
        .wrapping_add(fnv_hash(matcher.value().as_str()))
}
