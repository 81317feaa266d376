//! What every closure does. The trait has one ghost member, `state` (meaning and room). Its
//! contracts use only the definitions of `specs/`; each change is one relation by cases on the
//! result.
ghost use Rattle.std.specs.Prelude.{◌≡◌, ℕ, ◌≤◌, ◌↔◌, IsTrue, IsOk, OnOk, IfOk, length};
ghost use Rattle.std.specs.Prelude.{Contains};

use crate::error::TakeError;
use crate::lending::{Accepted, Distrusts, Receipts};
use crate::outcome::{Distrusted, Refused, Taken};
use bundle_doc::Document;
use fed_config::Config;
use jwk_set::KeyId;
use receipt_core::Receipt;
use spiffe_name::TrustDomain;
use std::alloc::{AllocError, Global};

/// Memory ran out.
pub type NoMemory = AllocError;

/// A configuration, a set of receipts and a set of records of distrust, which together say what is
/// accepted: the least set that has the configured documents and, for each held receipt that an
/// accepted document vouches for, the receipt's document (SPIFFE Federation, section 5.2, profile
/// `https_spiffe`).
///
/// A document vouches for a receipt if it is of the endpoint's trust domain, has the voucher's
/// id and an X.509 authority with the receipt's key, and that key is not distrusted in that domain.
/// A receipt that no accepted document vouches for is pending, and is still held. How many receipts
/// and records of distrust are held at most is what the configuration's limits say, and never more
/// than 4,194,304 receipts and 65,536 records.
pub trait Closure: Drop {
    ghost use Rattle.receipt_core.specs.Acceptance.{Meaning, IsMeaning, IsMember};
    ghost use Rattle.closure_core.specs.AcceptedList.{IsAcceptedList, IsPendingCount, document_of};
    ghost use Rattle.closure_core.specs.AcceptedList.{receipts_in};
    ghost use Rattle.closure_core.specs.Refusals.{Room, IsRoomier};
    ghost use Rattle.closure_core.specs.Changes.{HeldAndRoom, empty_of, Takes, TakesDistrust};
    ghost use Rattle.closure_core.specs.Changes.{Merges};

    // The configuration, the receipts and the records of distrust, and how much more there is
    // memory for.
    ghost state: { Self → HeldAndRoom };

    /// A closure of the configuration that holds no receipt and no record of distrust. It makes
    /// room for all records.
    ///
    /// # Errors
    /// Memory ran out.
    fn new(alloc: Global, config: &Config) -> Result<Self, NoMemory>
        ensures { IfOk result (λ c. (state c).meaning ≡ empty_of config.now) };

    /// The configuration.
    fn config(&self) -> &Config
        ensures config { result.now ≡ (state self.now).meaning.config }
        ensures valid { IsMeaning (state self.now).meaning };

    /// Takes a receipt: it is held from now on, whether or not an accepted document vouches for it.
    ///
    /// # Errors
    /// The receipt comes back, and what is held is unchanged. The first of these that holds:
    /// - [`TakeError::UnknownDomain`]: the configuration has no relationship with the receipt's
    ///   domain,
    /// - [`TakeError::WrongEndpoint`]: that relationship has another endpoint,
    /// - [`TakeError::BelowFloor`]: the receipt's document is below the floor of its domain,
    /// - [`TakeError::Full`]: the receipt is not held, and no more may be,
    /// - [`TakeError::NoMemory`]: memory ran out. Never if the receipt and its offers are within
    ///   [`Closure::room`].
    fn take(&mut self, receipt: Receipt) -> Result<Taken, Refused>
        ensures { Takes (state self.old) receipt (state self.new) result };

    /// Takes all receipts and all records of distrust of another closure, or none, and returns how
    /// many receipts were not held. It uses up no more room than these and their offers.
    ///
    /// # Errors
    /// What is held is as before. `ConfigDiffers` comes first; of the others the first that holds:
    /// - [`TakeError::ConfigDiffers`]: the other's configuration has another digest,
    /// - [`TakeError::UnknownDomain`]: the configuration, which then is another one of the same
    ///   digest, has no relationship with the domain of a receipt of the other, or does not have
    ///   the domain of a record of the other,
    /// - [`TakeError::WrongEndpoint`]: it has another endpoint for the domain of a receipt,
    /// - [`TakeError::BelowFloor`]: it has a floor that the document of a receipt does not reach,
    /// - [`TakeError::Full`]: there would be more receipts, or more records, than may be held,
    /// - [`TakeError::NoMemory`]: memory ran out.
    fn merge(&mut self, other: &Self) -> Result<usize, TakeError>
        ensures { Merges (state self.old) (state other.now).meaning (state self.new) result };

    /// Distrusts a key in a domain: it vouches for nothing there any more. It takes no memory.
    ///
    /// # Errors
    /// What is held is as before. The first of these that holds:
    /// - [`TakeError::UnknownDomain`]: the domain is not one of the configuration,
    /// - [`TakeError::Full`]: the record is not held, and no more may be.
    fn distrust(&mut self, domain: &TrustDomain, key: KeyId) -> Result<Distrusted, TakeError>
        ensures meaning { TakesDistrust (state self.old).meaning
            (record { domain = domain.now; key = key }) (state self.new).meaning result }
        ensures room { (state self.new).room ≡ (state self.old).room };

    /// Whether the document is accepted as one of this domain.
    fn is_accepted(&self, domain: &TrustDomain, document: &Document) -> bool
        ensures { IsTrue result
            ↔ IsMember (state self.now).meaning (document_of domain.now document.now) };

    /// The accepted documents of the domain, each once, sorted by rank, with an absent one first,
    /// and then by canonical text.
    fn accepted(&self, domain: &TrustDomain) -> Accepted<'_>
        ensures { IsAcceptedList (state self.now).meaning domain.now result };

    /// The receipts, in the order of their lines' bytes.
    fn receipts(&self) -> Receipts<'_>
        ensures { result ≡ (state self.now).meaning.held };

    /// The receipts whose id begins with the byte, in the order of their lines' bytes. A closure
    /// that does not keep them in an order by bucket looks at the ids of all receipts.
    fn receipts_of(&self, bucket: u8) -> Receipts<'_>
        ensures { result ≡ receipts_in bucket (state self.now).meaning.held };

    /// The records of distrust, sorted by key id and then by domain.
    fn distrusts(&self) -> Distrusts<'_>
        ensures { result ≡ (state self.now).meaning.records };

    /// Whether the receipt is held. It is looked up, so its work grows with the logarithm of how
    /// many are.
    fn holds(&self, receipt: &Receipt) -> bool
        ensures { IsTrue result ↔ Contains (state self.now).meaning.held receipt.now };

    /// Whether the key is distrusted in the domain. It is looked up, as a receipt is.
    fn is_distrusted(&self, domain: &TrustDomain, key: KeyId) -> bool
        ensures { IsTrue result ↔ Contains (state self.now).meaning.records
            (record { domain = domain.now; key = key }) };

    /// How many receipts are held.
    fn receipt_count(&self) -> usize
        ensures { result ≡ length (state self.now).meaning.held };

    /// How many receipts are held that no accepted document vouches for.
    fn pending_count(&self) -> usize
        ensures { IsPendingCount (state self.now).meaning result };

    /// Makes room for this many more receipts, with this many offers together.
    ///
    /// # Errors
    /// Memory ran out. What is held is unchanged, and there is at least the room of before.
    fn try_reserve(&mut self, receipts: usize, offers: usize) -> Result<(), NoMemory>
        ensures meaning { (state self.new).meaning ≡ (state self.old).meaning }
        ensures room { IsRoomier (state self.old).room (state self.new).room }
        ensures ok { OnOk result
            (IsRoomier (record { receipts = receipts; offers = offers }) (state self.new).room) }

        // It is refused only if there was not this room already.
        ensures within { IsRoomier (record { receipts = receipts; offers = offers })
            (state self.old).room → IsOk result };

    /// For how many receipts more there is room, and for how many offers of them. Within it, a
    /// receipt is never refused for lack of memory.
    fn room(&self) -> (usize, usize)
        ensures receipts { result.0 ≡ (state self.now).room.receipts }
        ensures offers { result.1 ≡ (state self.now).room.offers };
}
