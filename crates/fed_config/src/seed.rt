//! Bundles that a replica is given out of band.
ghost use Rattle.std.specs.Prelude.{◌≡◌, IfOk};

use bundle_doc::Document;
use spiffe_name::TrustDomain;
use std::alloc::{AllocError, Global};
use std::cmp::Ordering;

/// A bundle of a trust domain that was obtained out of band (SPIFFE Federation, section 5.2.1).
#[derive(Debug, Drop)]
pub struct Seed {
    pub domain: TrustDomain,
    pub document: Document,
}

impl Seed {
    /// An equal seed.
    ///
    /// # Errors
    /// Memory ran out.
    pub fn try_clone(&self, alloc: Global) -> Result<Seed, AllocError>
        ensures { IfOk result (λ s. s ≡ self.now) }
    {
        Ok(Seed {
            domain: self.domain.try_clone(alloc)?,
            document: self.document.try_clone(alloc)?,
        })
    }
}

impl PartialEq for Seed {
    ghost use Rattle.std.specs.Cmp.{on_per, partial_equiv_from_equiv};
    ghost use Rattle.fed_config.specs.Seeds.{same_seed, same_seed_equiv};

    ghost eq = { same_seed };

    ghost laws = { partial_equiv_from_equiv same_seed_equiv };

    fn eq(&self, other: &Seed) -> bool {
        self.cmp(other) == Ordering::Equal
    }
}

impl Eq for Seed {
    ghost use Rattle.fed_config.specs.Seeds.{same_seed_equiv};

    ghost laws = { same_seed_equiv };
}

impl PartialOrd for Seed {
    ghost use Rattle.std.specs.Prelude.{Some};
    ghost use Rattle.fed_config.specs.Configuration.{seed_cmp};
    ghost use Rattle.fed_config.specs.Seeds.{seeds_po};

    ghost partial_cmp = { λ a b. Some (seed_cmp a b) };

    ghost laws = { seeds_po };

    fn partial_cmp(&self, other: &Seed) -> Option<Ordering> {
        Some(self.cmp(other))
    }
}

impl Ord for Seed {
    ghost use Rattle.std.specs.Prelude.{refl};
    ghost use Rattle.fed_config.specs.Configuration.{seed_cmp};
    ghost use Rattle.fed_config.specs.Seeds.{seed_cmp_total, seeds_tie};

    ghost cmp = { seed_cmp };

    ghost total = { seed_cmp_total };

    ghost matches_partial_cmp = { λ a b. refl };

    ghost matches_eq = { seeds_tie };

    /// By domain, and then by the document's canonical text.
    fn cmp(&self, other: &Seed) -> Ordering {
        match self.domain.cmp(&other.domain) {
            Ordering::Equal => self.document.canonical().cmp(other.document.canonical()),
            unequal => unequal,
        }
    }
}
