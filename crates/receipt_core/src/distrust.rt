//! Records of distrust.
ghost use Rattle.std.specs.Prelude.{◌≡◌, ◌↔◌, IsTrue, IfOk, MatchResult, Some, refl};
ghost use Rattle.std.specs.Cmp.{partial_equiv_from_equiv};
ghost use Rattle.receipt_core.specs.Receipt.{distrust_cmp, distrust_line};
ghost use Rattle.receipt_core.specs.Line.{IsRecord, RefusesRecord};
ghost use Rattle.receipt_core.specs.Order.{same_distrust, distrust_total, distrust_equiv};
ghost use Rattle.receipt_core.specs.Order.{distrust_po};

use crate::line_error::LineError;
use crate::record_line::{read_distrust, write_distrust};
use jwk_set::KeyId;
use spiffe_name::TrustDomain;
use std::alloc::{AllocError, Global};
use std::cmp::Ordering;

/// A key that vouches for nothing any more in a trust domain. Records are equal exactly when both
/// parts are, and are ordered by key id, then by domain, each by its bytes, which is the order of
/// their lines.
#[derive(Debug, Drop)]
pub struct Distrust {
    pub domain: TrustDomain,
    pub key: KeyId,
}

impl Distrust {
    /// Reads a record's line, without its line feed: compact JSON with the members `distrust`, the
    /// key id as 64 lower-case hexadecimal digits, and `domain`, in this order. It has at most 346
    /// bytes.
    ///
    /// # Errors
    /// - [`LineError::TooLong`]: it has more than 8,388,608 bytes,
    /// - [`LineError::NotCanonical`]: it is not a record's line,
    /// - [`LineError::NoMemory`]: memory ran out, which is returned only within the bound of
    ///   records' lines.
    pub fn read_line(alloc: Global, bytes: &[u8]) -> Result<Distrust, LineError>
        ensures { MatchResult result (IsRecord bytes.now) (RefusesRecord bytes.now) }
    {
        read_distrust(alloc, bytes)
    }

    /// The line, without a line feed.
    ///
    /// # Errors
    /// Memory ran out.
    pub fn write_line(&self, alloc: Global) -> Result<Vec<u8>, AllocError>
        ensures { IfOk result (λ text. text.items ≡ distrust_line self.now) }
    {
        write_distrust(alloc, self)
    }

    /// A record that is equal to this one.
    ///
    /// # Errors
    /// Memory ran out.
    pub fn try_clone(&self, alloc: Global) -> Result<Distrust, AllocError>
        ensures { IfOk result (λ x. x ≡ self.now) }
    {
        Ok(Distrust {
            domain: self.domain.try_clone(alloc)?,
            key: self.key,
        })
    }
}

impl PartialEq for Distrust {
    ghost eq = { same_distrust };

    ghost laws = { partial_equiv_from_equiv distrust_equiv };

    fn eq(&self, other: &Distrust) -> bool
        ensures order { result ≡ same_distrust self.now other.now }
        ensures meaning { IsTrue result ↔ (self.now ≡ other.now) }
    {
        self.cmp(other) == Ordering::Equal
    }
}

impl Eq for Distrust {
    ghost laws = { distrust_equiv };
}

impl PartialOrd for Distrust {
    ghost partial_cmp = { λ a b. Some (distrust_cmp a b) };

    ghost laws = { distrust_po };

    fn partial_cmp(&self, other: &Distrust) -> Option<Ordering> {
        Some(self.cmp(other))
    }
}

impl Ord for Distrust {
    ghost cmp = { distrust_cmp };

    ghost total = { distrust_total };

    ghost matches_partial_cmp = { λ a b. refl };

    ghost matches_eq = { λ a b. refl };

    fn cmp(&self, other: &Distrust) -> Ordering {
        let domains = self.domain.cmp(&other.domain);
        self.key.cmp(&other.key).then(domains)
    }
}
