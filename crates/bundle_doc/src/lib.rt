#![tactic(auto)]

//! Bundle documents (SPIFFE Trust Domain and Bundle, section 4): what one says, its canonical text
//! and its id.
mod authorities;
mod canonical_authority;
mod canonical_reader;
mod contents;
mod document;
mod document_numbers;
mod elements;
mod error;
mod known_authorities;
mod known_beginnings;
mod known_documents;
pub mod laws;
mod text_places;

pub use document::{DocId, Document, MAX_DOCUMENT_BYTES};
pub use error::DocError;
pub use known_documents::KnownDocuments;
