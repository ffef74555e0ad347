//! Types whose clones are the same value, so that a contract may take a clone for the original.
ghost use Rattle.std.specs.Prelude.{◌≡◌, Some, None, refl};
ghost use Rattle.std.proofs.Common.{ap};

/// A type whose clones are the same value.
pub trait Exact: Clone {
    ghost exact: { (x y : Self) → Self.is_clone x y → y ≡ x };
}

impl<T: Exact> Exact for Option<T> {
    ghost exact = { λ x y same. elim x as (λ a. ⟦<Option<T> as Clone>⟧.is_clone a y → y ≡ a) [ None ↦ elim y as (λ b. ⟦<Option<T> as Clone>⟧.is_clone None b → b ≡ None) [ None ↦ λ h. refl | Some w ↦ λ h. absurd h ] | Some v ↦ elim y as (λ b. ⟦<Option<T> as Clone>⟧.is_clone (Some v) b → b ≡ Some v) [ None ↦ λ h. absurd h | Some w ↦ λ h. ap (λ z. Some z) (T.exact v w h) ] ] same };
}

impl Exact for bool {
    ghost exact = { λ x y same. same };
}

impl Exact for usize {
    ghost exact = { λ x y same. same };
}

impl Exact for u64 {
    ghost exact = { λ x y same. same };
}

impl Exact for u128 {
    ghost exact = { λ x y same. same };
}

impl Exact for i128 {
    ghost exact = { λ x y same. same };
}

impl<A: Exact + Drop, B: Exact + Drop> Exact for (A, B) {
    ghost exact = { λ x y same. λ i. (A.exact x.0 y.0 same.0 i, B.exact x.1 y.1 same.1 i) };
}
