//! The ids of silences, which are UUIDs. Scripts give them; none is made here, because nothing here
//! is random.
ghost use Rattle.std.specs.Prelude.{◌≡◌, Some, nat_eq, IfOk, option_map, string_bytes};
ghost use Rattle.std.specs.Ordering.{nat_cmp};
ghost use Rattle.std.specs.Cmp.Rules.{comparing};
ghost use Rattle.std.proofs.Common.{rules};
ghost use Rattle.amr_events.specs.Posts.Ids.{id_of, id_text};

use amr_labels::Exact;
use amr_tables::Key;
use std::alloc::{AllocError, Global};
use std::cmp::Ordering;
use std::hash::{Hash, Hasher};
use std::marker::Model;
use uuid::Uuid;

/// How many numbers a half of an id can be.
const HALF: u128 = 18_446_744_073_709_551_616;

/// The id of a silence: the 128 bits of its UUID. They are kept in two halves, because a number of 128
/// bits may only stand at multiples of 16 bytes.
#[derive(Clone, Copy)]
pub struct SilenceId {
    low: u64,
    high: u64,
}

impl Model for SilenceId {
    ghost use Rattle.std.specs.Prelude.{ℕ, ◌≡◌, ◌+◌, ◌*◌, ◌/◌, ◌%◌, ◌<◌};
    ghost use Rattle.std.proofs.Common.{refl, arith};

    ghost Value = { ℕ };

    ghost view = { λ id. id.low + id.high * 18_446_744_073_709_551_616 };

    ghost invariant = { λ id. id.low < 18_446_744_073_709_551_616 };

    ghost inverse = { λ n. record {
      low = n % 18_446_744_073_709_551_616;
      high = n / 18_446_744_073_709_551_616;
    } };

    ghost inverse_ok = { λ a below.
        let low : (a.low + a.high * 18_446_744_073_709_551_616)
        % 18_446_744_073_709_551_616 ≡ a.low = omega arith in
        let high : (a.low + a.high * 18_446_744_073_709_551_616)
        / 18_446_744_073_709_551_616 ≡ a.high = omega arith in
        rw (low, high) refl };
}

impl SilenceId {
    /// Reads a UUID (RFC 9562) in one of four forms: 32 hexadecimal digits, these hyphenated as
    /// 8-4-4-4-12, and the hyphenated form in braces or after `urn:uuid:`. Digits and the prefix
    /// may be in either case. Returns `None` for any other text.
    #[tactic(auto, unfolding(crate::specs::Posts::Ids::id_of))]
    pub fn read(text: &str) -> Option<SilenceId>
        ensures { result ≡ id_of text.now }
    {
        match Uuid::try_parse(text) {
            Ok(id) => Some(SilenceId::from_bits(id.as_u128())),
            Err(_) => None,
        }
    }

    /// Returns the UUID hyphenated, in lower case, as Alertmanager prints it.
    pub fn text(self, alloc: Global) -> Result<String, AllocError>
        ensures { IfOk result (λ text. string_bytes text ≡ id_text self) }
    {
        let mut buffer = Uuid::encode_buffer();
        String::from_str(
            alloc,
            Uuid::from_u128(self.bits())
                .hyphenated()
                .encode_lower(&mut buffer),
        )
    }
}

impl SilenceId {
    /// Returns the id with these bits.
    fn from_bits(bits: u128) -> SilenceId
        ensures { result ≡ bits }
    {
        SilenceId {
            low: (bits % HALF) as u64,
            high: (bits / HALF) as u64,
        }
    }

    /// Returns the bits.
    fn bits(self) -> u128
        ensures { result ≡ self }
    {
        self.low as u128 + self.high as u128 * HALF
    }
}

impl Exact for SilenceId {
    ghost exact = { λ x y same. same };
}

impl Key for SilenceId {
    ghost use Rattle.std.specs.FinMap.{nat_cmp-IsAntisymmetric};

    ghost exact = { nat_cmp-IsAntisymmetric };
}

impl PartialEq for SilenceId {
    ghost eq = { nat_eq };

    ghost laws = { Prim.search (comparing, rules) };

    fn eq(&self, other: &SilenceId) -> bool {
        self.bits() == other.bits()
    }
}

impl Eq for SilenceId {
    ghost laws = { Prim.search rules };
}

impl PartialOrd for SilenceId {
    ghost partial_cmp = { λ a b. Some (nat_cmp a b) };

    ghost laws = { Prim.search (comparing, rules) };

    fn partial_cmp(&self, other: &SilenceId) -> Option<Ordering> {
        Some(self.cmp(other))
    }
}

impl Ord for SilenceId {
    ghost cmp = { nat_cmp };

    ghost total = { Prim.search rules };

    ghost matches_partial_cmp = { Prim.search rules };

    ghost matches_eq = { Prim.search rules };

    fn cmp(&self, other: &SilenceId) -> Ordering {
        self.bits().cmp(&other.bits())
    }
}

impl Hash for SilenceId {
    ghost use Rattle.std.specs.Hash as fed;

    ghost hash_input = { fed.u128 };

    ghost respects_eq = { Prim.search rules };

    fn hash<H: Hasher>(&self, state: &mut H) {
        state.write_u128(self.bits());
    }
}
