//! What vouches: a key of a document of a trust domain.
ghost use Rattle.std.specs.Prelude.{◌≡◌, ◌↔◌, IsTrue, IfOk, Some, refl};
ghost use Rattle.std.specs.Cmp.{partial_equiv_from_equiv};
ghost use Rattle.receipt_core.specs.Receipt.{triple_cmp};
ghost use Rattle.receipt_core.specs.Order.{same_triple, triple_total, triple_equiv, triple_po};

use bundle_doc::DocId;
use jwk_set::KeyId;
use spiffe_name::TrustDomain;
use std::alloc::{AllocError, Global};
use std::cmp::Ordering;
use std::marker::Model;
use std::sync::Arc;

/// A key of a document of a trust domain, by the document's id and the key's. A receipt needs one,
/// and a document offers one for each key of its X.509 authorities. Triples are equal exactly when
/// their three parts are, and are ordered by domain, then document id, then key id, each by its
/// bytes.
///
/// The triples that a document offers hold its domain and its id once between them, as do copies
/// of a triple.
#[derive(Debug, Drop)]
pub struct Triple {
    origin: Arc<Origin, Global>,
    key: KeyId,
}

/// The document whose keys vouch, by its domain and its id.
#[derive(Debug, Drop)]
pub(crate) struct Origin {
    domain: TrustDomain,
    document: DocId,
}

impl Model for Triple {
    ghost use Rattle.receipt_core.specs.Triple.{Triple};

    ghost Value = { Triple };

    ghost view = { λ t. record {
      domain = t.origin.value.domain;
      document = t.origin.value.document;
      key = t.key;
    } };
}

impl Origin {
    // One that triples can share.
    pub(crate) fn shared(
        alloc: Global,
        domain: &TrustDomain,
        document: DocId,
    ) -> Result<Arc<Origin, Global>, AllocError>
        ensures { IfOk result (λ o. o.value
            ≡ record { domain = domain.now; document = document }) }
    {
        let domain = domain.try_clone(alloc)?;
        Ok(Arc::new(alloc, Origin { domain, document })?)
    }
}

impl Triple {
    /// The triple of these parts. It keeps a copy of the domain's name.
    ///
    /// # Errors
    /// Memory ran out.
    pub fn new(
        alloc: Global,
        domain: &TrustDomain,
        document: DocId,
        key: KeyId,
    ) -> Result<Triple, AllocError>
        ensures { IfOk result (λ t. t
            ≡ record { domain = domain.now; document = document; key = key }) }
    {
        let origin = Origin::shared(alloc, domain, document)?;
        Ok(Triple { origin, key })
    }

    // The triple of a key of the document.
    pub(crate) fn of_key(origin: &Arc<Origin, Global>, key: KeyId) -> Result<Triple, AllocError>
        ensures { IfOk result (λ t. t
            ≡ record {
              domain = origin.now.value.domain;
              document = origin.now.value.document;
              key = key;
            }) }
    {
        let origin = Arc::try_clone(origin)?;
        Ok(Triple { origin, key })
    }

    /// A triple that is equal to this one. It shares the names of this one, and takes no memory for
    /// them.
    ///
    /// # Errors
    /// More triples would share the names than can be counted, which no memory can hold.
    pub fn try_clone(&self) -> Result<Triple, AllocError>
        ensures { IfOk result (λ t. t ≡ self.now) }
    {
        Triple::of_key(&self.origin, self.key)
    }

    /// The trust domain whose document it is.
    pub fn domain(&self) -> &TrustDomain
        ensures { result.now ≡ self.now.domain }
    {
        &self.origin.domain
    }

    /// The id of the document.
    pub fn document(&self) -> DocId
        ensures { result ≡ self.now.document }
    {
        self.origin.document
    }

    /// The id of the key.
    pub fn key(&self) -> KeyId
        ensures { result ≡ self.now.key }
    {
        self.key
    }
}

impl PartialEq for Triple {
    ghost eq = { same_triple };

    ghost laws = { partial_equiv_from_equiv triple_equiv };

    fn eq(&self, other: &Triple) -> bool
        ensures order { result ≡ same_triple self.now other.now }
        ensures meaning { IsTrue result ↔ (self.now ≡ other.now) }
    {
        self.cmp(other) == Ordering::Equal
    }
}

impl Eq for Triple {
    ghost laws = { triple_equiv };
}

impl PartialOrd for Triple {
    ghost partial_cmp = { λ a b. Some (triple_cmp a b) };

    ghost laws = { triple_po };

    fn partial_cmp(&self, other: &Triple) -> Option<Ordering> {
        Some(self.cmp(other))
    }
}

impl Ord for Triple {
    ghost cmp = { triple_cmp };

    ghost total = { triple_total };

    ghost matches_partial_cmp = { λ a b. refl };

    ghost matches_eq = { λ a b. refl };

    fn cmp(&self, other: &Triple) -> Ordering {
        let documents = self.document().cmp(&other.document());
        let keys = self.key.cmp(&other.key);
        self.domain().cmp(other.domain()).then(documents.then(keys))
    }
}
