//! Conflicts: accepted documents of a domain that contradict each other. The list of them is cut
//! into groups of one rank; a group of two or more with a sequence number is a conflict.
ghost use Rattle.std.specs.Prelude.{◌≡◌, ◌<◌, ◌≤◌, ◌++◌, ◌↔◌, List, map, length, IsTrue, IfOk};
ghost use Rattle.std.specs.Prelude.{OnOk, Contains};
ghost use Rattle.std.specs.List.Sorted.{IsStrictlySortedBy};
ghost use Rattle.closure_core.specs.AcceptedList.{document_cmp};
ghost use Rattle.bundle_view.specs.Conflicts.{AreAllConflicts, IsOfKind, id_in, reported_by};
ghost use Rattle.bundle_view.specs.Inside.Groups.{AddsConflicts, IsGroup, IsGroupLength};

use crate::listed::{Listed, list_accepted};
use bundle_doc::{DocId, Document};
use closure_core::{Closure, NoMemory};
use jwk_set::Authority;
use spiffe_name::TrustDomain;
use std::alloc::{AllocError, Global};

/// In what documents with one sequence number differ.
#[derive(Clone, Copy, Debug, PartialEq, Eq)]
pub enum ConflictKind {
    /// Two of them have different authorities, of either kind.
    Keys,
    /// All have the same authorities, so they differ only in their refresh hints.
    HintOnly,
}

/// Two or more accepted documents of a domain that have the same sequence number, though a server
/// is to change it with each change of its bundle (SPIFFE Trust Domain and Bundle, section 4.1.1).
/// A document without one is in no conflict.
#[derive(Debug, Drop)]
pub struct Conflict {
    /// The domain.
    pub domain: TrustDomain,
    /// The sequence number.
    pub sequence: u64,
    /// In what the documents differ.
    pub kind: ConflictKind,
    /// The ids of all accepted documents of the domain with the sequence number, in the order of
    /// their canonical texts.
    pub documents: Vec<DocId>,
}

/// All conflicts, sorted by domain and then by sequence number.
///
/// The work grows with the number of accepted documents and the bytes of those that are in
/// conflict.
///
/// # Errors
/// Memory ran out.
pub fn conflicts<C: Closure>(alloc: Global, closure: &C) -> Result<Vec<Conflict>, NoMemory>
    ensures { IfOk result (λ found. AreAllConflicts (C.state closure.now).meaning
        (map reported_by found.items)) }
{
    let mut found = Vec::new(alloc);
    for domain in closure.config().domains() {
        let documents = list_accepted(alloc, closure, domain)?;
        add_conflicts(alloc, domain, documents.as_slice(), &mut found)?;
    }
    Ok(found)
}

/// Adds the conflicts among documents that rise.
pub(crate) fn add_conflicts(
    alloc: Global,
    domain: &TrustDomain,
    documents: &[Listed],
    found: &mut Vec<Conflict>,
) -> Result<(), AllocError>
    requires { IsStrictlySortedBy document_cmp documents.now }
    ensures { OnOk result (AddsConflicts domain.now documents.now (map reported_by found.old.items)
        (map reported_by found.new.items)) }
{
    let mut start = 0;
    'groups: while start < documents.len() {
        let (_, rest) = documents.split_at(start);
        let len = group_len(rest);
        add_conflict(alloc, domain, &rest[..len], found)?;
        start += len;
    }
    Ok(())
}

/// How many documents at the front have the rank of the first.
fn group_len(documents: &[Listed]) -> usize
    requires { 0 < length documents.now }
    ensures { IsGroupLength documents.now result }
{
    let rank = documents[0].document().rank();
    let mut len = 1;
    while len < documents.len() && documents[len].document().rank() == rank {
        len += 1;
    }
    len
}

/// Adds the conflict of the documents, which rise and have one rank, if they are two or more and
/// the rank is present.
fn add_conflict(
    alloc: Global,
    domain: &TrustDomain,
    group: &[Listed],
    found: &mut Vec<Conflict>,
) -> Result<(), AllocError>
    requires { IsGroup group.now }
    ensures { OnOk result (AddsConflicts domain.now group.now (map reported_by found.old.items)
        (map reported_by found.new.items)) }
{
    let Some(sequence) = group[0].document().rank() else {
        return Ok(());
    };
    if group.len() < 2 {
        return Ok(());
    }
    let documents = ids_of(alloc, domain, group)?;
    found.push(Conflict {
        domain: domain.try_clone(alloc)?,
        sequence,
        kind: kind_of(group),
        documents,
    })?;
    Ok(())
}

fn kind_of(group: &[Listed]) -> ConflictKind
    requires { 0 < length group.now }
    ensures { IsOfKind group.now result }
{
    let first = group[0].document();
    for listed in group {
        if !have_same_authorities(first, listed.document()) {
            return ConflictKind::Keys;
        }
    }
    ConflictKind::HintOnly
}

fn have_same_authorities(one: &Document, other: &Document) -> bool
    ensures { IsTrue result ↔ (one.now.authorities ≡ other.now.authorities) }
{
    let (ones, others) = (one.authorities(), other.authorities());
    ones.len() == others.len() && are_same(ones, others)
}

fn are_same(ones: &[Authority], others: &[Authority]) -> bool
    requires { length ones.now ≡ length others.now }
    ensures { IsTrue result ↔ (ones.now ≡ others.now) }
{
    for place in 0..ones.len() {
        if !is_same(&ones[place], &others[place]) {
            return false;
        }
    }
    true
}

fn is_same(one: &Authority, other: &Authority) -> bool
    ensures { IsTrue result ↔ (one.now ≡ other.now) }
{
    one == other
}

fn ids_of(alloc: Global, domain: &TrustDomain, group: &[Listed]) -> Result<Vec<DocId>, AllocError>
    ensures { IfOk result (λ ids. ids.items ≡ map (id_in domain.now) group.now) }
{
    let mut ids = Vec::with_capacity(alloc, group.len())?;
    for listed in group {
        ids.push(listed.id(domain))?;
    }
    Ok(ids)
}
