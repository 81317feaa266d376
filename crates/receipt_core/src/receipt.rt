//! Receipts. A clone copies what was computed: the offers, and the id if it is kept.
ghost use Rattle.std.specs.Prelude.{◌≡◌, ◌↔◌, IsTrue, IfOk, IfSome, MatchResult, Some, refl};
ghost use Rattle.std.specs.Cmp.{partial_equiv_from_equiv};
ghost use Rattle.bundle_doc.specs.Bundle.{doc_id_of};
ghost use Rattle.receipt_core.specs.Receipt.{IsReceipt, line, receipt_cmp, receipt_id_of, need_of};
ghost use Rattle.receipt_core.specs.Receipt.{offers_of, pair_of};
ghost use Rattle.receipt_core.specs.Order.{same_receipt, receipt_total, receipt_equiv, receipt_po};
ghost use Rattle.receipt_core.specs.Line.{IsLine, RefusesReceiptLine};
ghost use Rattle.receipt_core.specs.Parts.{IsKeptReceipt, parts_cmp, rest_cmp};

use crate::line::{form_of_parts, id_of, write_receipt};
use crate::line_error::LineError;
use crate::line_reader::{read_directly, read_receipt};
use crate::offers::{copies_of, offers_with};
use crate::receipt_id::ReceiptId;
use crate::triple::Triple;
use bundle_doc::{DocId, Document, KnownDocuments};
use jwk_set::KeyId;
use spiffe_name::{SpiffeId, TrustDomain};
use std::alloc::{AllocError, Global};
use std::cmp::Ordering;
use std::marker::Model;

/// What was noted of one fetch: which document came for which domain, from which endpoint; and
/// which key of which document of the endpoint's trust domain proved it (SPIFFE Federation, section
/// 5.2, profile `https_spiffe`).
///
/// Receipts are equal exactly when their five parts are, which is when their lines are, and are
/// ordered by their lines' bytes. A receipt keeps its document once, and with it what it needs
/// and what it offers, which are computed when it is made. Its id, the digest of its whole line, is
/// computed when it is asked for, and kept only if [`Receipt::keep_id`] was called.
#[derive(Debug, Drop)]
pub struct Receipt {
    domain: TrustDomain,
    endpoint: SpiffeId,
    document: Document,
    voucher: DocId,
    key: KeyId,
    id: Option<ReceiptId>,
    need: Triple,
    offers: Vec<Triple>,
}

impl Model for Receipt {
    ghost use Rattle.receipt_core.specs.Receipt.{Receipt};
    ghost use Rattle.receipt_core.specs.Parts.{IsKeptReceipt};

    ghost Value = { Receipt };

    ghost view = { λ r. record {
      domain = r.domain;
      endpoint = r.endpoint;
      document = r.document;
      voucher = r.voucher;
      key = r.key;
    } };

    ghost invariant = { λ r. IsKeptReceipt
        (record {
          domain = r.domain;
          endpoint = r.endpoint;
          document = r.document;
          voucher = r.voucher;
          key = r.key;
        }) r.id r.need r.offers.items };
}

impl Receipt {
    /// The receipt of these parts: the domain of the document, the endpoint that served it, the
    /// document, the id of the document of the endpoint's trust domain that vouched for it, and the
    /// id of the key that authenticated the endpoint.
    ///
    /// # Errors
    /// Memory ran out.
    pub fn new(
        alloc: Global,
        domain: TrustDomain,
        endpoint: SpiffeId,
        document: Document,
        voucher: DocId,
        key: KeyId,
    ) -> Result<Receipt, AllocError>
        ensures { IfOk result (λ r. r
            ≡ record {
              domain = domain;
              endpoint = endpoint;
              document = document;
              voucher = voucher;
              key = key;
            }) }
    {
        let mut known = KnownDocuments::none(alloc);
        Receipt::new_with(alloc, domain, endpoint, document, voucher, key, &mut known)
    }

    // The same, if documents are known.
    pub(crate) fn new_with(
        alloc: Global,
        domain: TrustDomain,
        endpoint: SpiffeId,
        document: Document,
        voucher: DocId,
        key: KeyId,
        known: &mut KnownDocuments,
    ) -> Result<Receipt, AllocError>
        ensures { IfOk result (λ r. r
            ≡ record {
              domain = domain;
              endpoint = endpoint;
              document = document;
              voucher = voucher;
              key = key;
            }) }
    {
        form_of_parts(&domain, &endpoint, &document, voucher, key);
        let need = Triple::new(alloc, endpoint.domain(), voucher, key)?;
        let offers = offers_with(alloc, &domain, &document, known)?;
        Ok(Receipt {
            domain,
            endpoint,
            document,
            voucher,
            key,
            id: None,
            need,
            offers,
        })
    }

    /// Reads a line, without its line feed. A receipt has one line: compact JSON with the members
    /// `doc`, `domain`, `endpoint`, `key` and `voucher` in this order. `doc` is the canonical
    /// document, and the digests are 64 lower-case hexadecimal digits.
    ///
    /// A receipt's line has at most 1,051,063 bytes; a longer one is refused before it is parsed. A
    /// line that is read directly takes memory for its receipt; any other is parsed as JSON, whose
    /// tree can take over a hundred times its text.
    ///
    /// # Errors
    /// - [`LineError::TooLong`]: it has more than 8,388,608 bytes,
    /// - [`LineError::NotCanonical`]: it is not a receipt's line,
    /// - [`LineError::NoMemory`]: memory ran out, which is returned only within the bound of
    ///   receipts' lines.
    pub fn read_line(alloc: Global, bytes: &[u8]) -> Result<Receipt, LineError>
        ensures { MatchResult result (IsLine bytes.now) (RefusesReceiptLine bytes.now) }
    {
        read_receipt(alloc, bytes, &mut KnownDocuments::none(alloc))
    }

    /// Reads a line as [`Receipt::read_line`] does, if documents are known: an authority or the
    /// beginning of a document that came twice is neither read nor hashed. The receipts share what
    /// the authority takes.
    ///
    /// # Errors
    /// As those of [`Receipt::read_line`].
    pub fn read_line_with(
        alloc: Global,
        bytes: &[u8],
        known: &mut KnownDocuments,
    ) -> Result<Receipt, LineError>
        ensures { MatchResult result (IsLine bytes.now) (RefusesReceiptLine bytes.now) }
    {
        read_receipt(alloc, bytes, known)
    }

    /// Reads a line by its parts, with no JSON tree between, as [`Receipt::read_line`] does first.
    /// If it returns None that call has to decide.
    ///
    /// # Errors
    /// Memory ran out.
    pub fn read_directly(alloc: Global, bytes: &[u8]) -> Result<Option<Receipt>, AllocError>
        ensures { IfOk result (λ o. IfSome o (IsLine bytes.now)) }
    {
        read_directly(alloc, bytes, &mut KnownDocuments::none(alloc))
    }

    /// The line, without a line feed.
    ///
    /// # Errors
    /// Memory ran out.
    pub fn write_line(&self, alloc: Global) -> Result<Vec<u8>, AllocError>
        ensures { IfOk result (λ text. text.items ≡ line self.now) }
    {
        write_receipt(alloc, self)
    }

    /// The trust domain whose document was served.
    pub fn domain(&self) -> &TrustDomain
        ensures domain { result.now ≡ self.now.domain }
        ensures form { IsReceipt self.now }
    {
        &self.domain
    }

    /// The endpoint that served the document.
    pub fn endpoint(&self) -> &SpiffeId
        ensures { result.now ≡ self.now.endpoint }
    {
        &self.endpoint
    }

    /// The document that was served.
    pub fn document(&self) -> &Document
        ensures { result.now ≡ self.now.document }
    {
        &self.document
    }

    /// The id of the document as one of its domain. If the document offers something the id is
    /// at hand, and else it is computed, which takes time for each byte of the document.
    pub fn document_id(&self) -> DocId
        ensures { result.0 ≡ doc_id_of self.now.domain self.now.document }
    {
        match self.offers.as_slice() {
            [first, ..] => first.document(),
            [] => self.document.id(&self.domain),
        }
    }

    /// The id of the document of the endpoint's trust domain that vouches for this one.
    pub fn voucher(&self) -> DocId
        ensures { result ≡ self.now.voucher }
    {
        self.voucher
    }

    /// The id of the key of that document that authenticated the endpoint.
    pub fn key(&self) -> KeyId
        ensures { result ≡ self.now.key }
    {
        self.key
    }

    /// The id: the SHA-256 of the line, without a line feed. If it is not kept it is computed
    /// again, which takes time for each byte of the line, and no memory.
    pub fn id(&self) -> ReceiptId
        ensures { result.0 ≡ receipt_id_of self.now }
    {
        match self.id {
            Some(id) => id,
            None => self.computed_id(),
        }
    }

    fn computed_id(&self) -> ReceiptId
        ensures { result.0 ≡ receipt_id_of self.now }
    {
        id_of(
            &self.domain,
            &self.endpoint,
            &self.document,
            self.voucher,
            self.key,
        )
    }

    /// The same receipt, which keeps its id from now on, for those who ask for it again and again.
    pub fn keep_id(mut self) -> Receipt
        ensures { result ≡ self }
    {
        self.id = Some(self.id());
        self
    }

    /// What a document has to offer to vouch for this receipt: the key of the voucher, in the
    /// endpoint's trust domain.
    pub fn need(&self) -> &Triple
        ensures { result.now ≡ need_of self.now }
    {
        &self.need
    }

    /// What the receipt's document can vouch by: one triple for each different key id of its X.509
    /// authorities, sorted.
    pub fn offers(&self) -> &[Triple]
        ensures { result.now ≡ offers_of (pair_of self.now) }
    {
        self.offers.as_slice()
    }

    /// A receipt that is equal to this one.
    ///
    /// # Errors
    /// Memory ran out.
    pub fn try_clone(&self, alloc: Global) -> Result<Receipt, AllocError>
        ensures { IfOk result (λ r. r ≡ self.now) }
    {
        Ok(Receipt {
            domain: self.domain.try_clone(alloc)?,
            endpoint: self.endpoint.try_clone(alloc)?,
            document: self.document.try_clone(alloc)?,
            voucher: self.voucher,
            key: self.key,
            id: self.id,
            need: self.need.try_clone()?,
            offers: copies_of(alloc, self.offers.as_slice())?,
        })
    }

    // The order of the parts after the document.
    fn cmp_behind_document(&self, other: &Receipt) -> Ordering
        ensures { result ≡ rest_cmp self.now other.now }
    {
        let names = self
            .domain
            .cmp(&other.domain)
            .then(self.endpoint.cmp(&other.endpoint));
        let digests = self
            .key
            .cmp(&other.key)
            .then(self.voucher.cmp(&other.voucher));
        names.then(digests)
    }

    // The order of the parts, each by its bytes.
    fn cmp_parts(&self, other: &Receipt) -> Ordering
        ensures order { result ≡ parts_cmp self.now other.now }
        ensures left { IsReceipt self.now }
        ensures right { IsReceipt other.now }
    {
        match self.document.canonical().cmp(other.document.canonical()) {
            Ordering::Equal => self.cmp_behind_document(other),
            unequal => unequal,
        }
    }
}

impl PartialEq for Receipt {
    ghost eq = { same_receipt };

    ghost laws = { partial_equiv_from_equiv receipt_equiv };

    fn eq(&self, other: &Receipt) -> bool
        ensures lines { result ≡ same_receipt self.now other.now }
        ensures meaning { IsTrue result ↔ (self.now ≡ other.now) }
    {
        self.cmp_parts(other) == Ordering::Equal
    }
}

impl Eq for Receipt {
    ghost laws = { receipt_equiv };
}

impl PartialOrd for Receipt {
    ghost partial_cmp = { λ a b. Some (receipt_cmp a b) };

    ghost laws = { receipt_po };

    fn partial_cmp(&self, other: &Receipt) -> Option<Ordering> {
        Some(self.cmp(other))
    }
}

impl Ord for Receipt {
    ghost cmp = { receipt_cmp };

    ghost total = { receipt_total };

    ghost matches_partial_cmp = { λ a b. refl };

    ghost matches_eq = { λ a b. refl };

    fn cmp(&self, other: &Receipt) -> Ordering {
        self.cmp_parts(other)
    }
}
