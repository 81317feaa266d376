//! Which accepted documents list each key. A key is looked up by its id, and each document is
//! hashed once.
ghost use Rattle.std.specs.Prelude.{◌≡◌, IfOk, OnOk, Some};
ghost use Rattle.jwk_set.specs.Element.{key_id_of};
ghost use Rattle.key_view.specs.Inside.Listed.{AddsKey, AddsListed, AreListings, ListsBefore};
ghost use Rattle.key_view.specs.Inside.Listed.{ids_of, last_listed, listing_at, with_id};

use crate::key_listing::AcceptedBundle;
use bundle_doc::DocId;
use jwk_set::{Authority, KeyId};
use spiffe_name::TrustDomain;
use std::alloc::{AllocError, Global};
use std::collections::BTreeMap;

/// The documents that list a key.
#[derive(Debug, Drop)]
pub(crate) struct Listing {
    /// Their ids, in the order of the documents.
    pub(crate) ids: Vec<DocId>,
    /// Which of the documents was the last, counted from 1; 0 for none.
    pub(crate) last: usize,
}

/// A document that is looked at.
#[derive(Clone, Copy, Debug)]
pub(crate) struct Numbered {
    /// Its id.
    pub(crate) id: DocId,
    /// Which of the documents it is, counted from 1.
    pub(crate) number: usize,
}

/// For each key the documents that list it.
pub(crate) fn accepted_listings(
    alloc: Global,
    domain: &TrustDomain,
    accepted: &[AcceptedBundle<'_>],
) -> Result<BTreeMap<KeyId, Listing>, AllocError>
    ensures { IfOk result (AreListings domain.now accepted.now) }
{
    let mut listings = BTreeMap::new(alloc);
    for (earlier, bundle) in accepted.iter().enumerate() {
        let document = Numbered {
            id: bundle.document.id(domain),
            number: earlier + 1,
        };
        list_document(
            alloc,
            &mut listings,
            document,
            bundle.document.authorities(),
        )?;
    }
    Ok(listings)
}

/// The ids of the documents that list the key.
pub(crate) fn listed_ids(
    alloc: Global,
    listings: &BTreeMap<KeyId, Listing>,
    key: &KeyId,
) -> Result<Vec<DocId>, AllocError>
    ensures { IfOk result (λ ids. ids.items ≡ ids_of (listing_at listings.now key.now)) }
{
    match listings.get(key) {
        Some(listing) => listing.ids.as_slice().to_vec(alloc),
        None => Ok(Vec::new(alloc)),
    }
}

fn list_document(
    alloc: Global,
    listings: &mut BTreeMap<KeyId, Listing>,
    document: Numbered,
    authorities: &[Authority],
) -> Result<(), AllocError>
    requires { ListsBefore document.number listings.old }
    ensures { OnOk result (AddsListed document.id document.number authorities.now listings.old
        listings.new) }
{
    for authority in authorities {
        list_authority(alloc, listings, document, authority)?;
    }
    Ok(())
}

fn list_authority(
    alloc: Global,
    listings: &mut BTreeMap<KeyId, Listing>,
    document: Numbered,
    authority: &Authority,
) -> Result<(), AllocError>
    ensures { OnOk result (AddsKey document.id document.number (key_id_of authority.now)
        listings.old listings.new) }
{
    match authority.key_id() {
        Some(key) => list_key(alloc, listings, document, key),
        None => Ok(()),
    }
}

fn list_key(
    alloc: Global,
    listings: &mut BTreeMap<KeyId, Listing>,
    document: Numbered,
    key: KeyId,
) -> Result<(), AllocError>
    ensures { OnOk result (AddsKey document.id document.number (Some key) listings.old
        listings.new) }
{
    let before = listings.remove(&key);
    let listing = with_document(alloc, before, document)?;
    listings.insert(key, listing)?;
    Ok(())
}

// The same documents with this one, if it was not the last.
fn with_document(
    alloc: Global,
    before: Option<Listing>,
    document: Numbered,
) -> Result<Listing, AllocError>
    ensures ids { IfOk result (λ listing. listing.ids.items
        ≡ with_id document.id document.number before) }
    ensures last { IfOk result (λ listing. listing.last ≡ document.number) }
{
    let mut listing = listing_or_none(alloc, before);
    if listing.last != document.number {
        listing.ids.push(document.id)?;
        listing.last = document.number;
    }
    Ok(listing)
}

fn listing_or_none(alloc: Global, before: Option<Listing>) -> Listing
    ensures ids { result.ids.items ≡ ids_of before }
    ensures last { result.last ≡ last_listed before }
{
    match before {
        Some(listing) => listing,
        None => Listing {
            ids: Vec::new(alloc),
            last: 0,
        },
    }
}
