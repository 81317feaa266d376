//! The accepted documents of a domain in a list, with their ids.
ghost use Rattle.std.specs.Prelude.{◌≡◌, IfOk};
ghost use Rattle.bundle_doc.specs.Bundle.{doc_id_of};
ghost use Rattle.closure_core.specs.AcceptedList.{IsAcceptedList};

use bundle_doc::{DocId, Document};
use closure_core::Closure;
use spiffe_name::TrustDomain;
use std::alloc::{AllocError, Global};
use std::marker::Model;

/// A document that a closure lends, and its id as one of the list's domain.
#[derive(Drop)]
pub(crate) struct Listed<'a> {
    document: &'a Document,
    domain: &'a TrustDomain,
    id: DocId,
}

impl<'a> Model for Listed<'a> {
    ghost use Rattle.std.specs.Prelude.{◌≡◌};
    ghost use Rattle.bundle_doc.specs.Bundle.{Bundle, doc_id_of};

    ghost Value = { Bundle };

    ghost view = { λ a. a.document.now };

    ghost invariant = { λ a. a.id.0 ≡ doc_id_of a.domain.now a.document.now };
}

impl<'a> Listed<'a> {
    pub(crate) fn document(&self) -> &'a Document
        ensures { result.now ≡ self.now }
    {
        self.document
    }

    /// The id of the document as one of this domain, which is known if the list is of that domain.
    pub(crate) fn id(&self, domain: &TrustDomain) -> DocId
        ensures { result.0 ≡ doc_id_of domain.now self.now }
    {
        if self.domain.as_str() == domain.as_str() {
            self.id
        } else {
            self.document.id(domain)
        }
    }
}

/// The accepted documents of the domain, in their order.
pub(crate) fn list_accepted<'a, C: Closure>(
    alloc: Global,
    closure: &'a C,
    domain: &'a TrustDomain,
) -> Result<Vec<Listed<'a>>, AllocError>
    ensures { IfOk result (λ documents. IsAcceptedList (C.state closure.now).meaning domain.now
        documents.items) }
{
    let mut accepted = closure.accepted(domain);
    let mut documents = Vec::new(alloc);
    'lent: while let Some((document, id)) = accepted.next_with_id(domain) {
        documents.push(Listed {
            document,
            domain,
            id,
        })?;
    }
    Ok(documents)
}
