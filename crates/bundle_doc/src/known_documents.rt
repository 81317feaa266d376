//! What is known of documents that came before.
use crate::known_authorities::KnownAuthority;
use crate::known_beginnings::KnownBeginning;
use crate::text_places::Places;
use std::alloc::Global;

/// What is known of documents that came before, for those who read many: their authorities, and the
/// state of the hash function after their beginnings. An authority whose text came twice is
/// compared, byte by byte, and not read again, and the documents share what it takes. A beginning
/// that came twice is compared and not hashed again.
///
/// At most 4,096 authorities are kept with their texts, none of more than 4,096 bytes, and at most
/// 4,096 beginnings of at most 4,096 bytes. So they take at most some 30 MiB each. A few bytes of a
/// text give its place, and only one of the texts with the same place is kept. No result depends on
/// what is kept.
#[derive(Drop)]
pub struct KnownDocuments {
    pub(crate) authorities: Places<KnownAuthority>,
    pub(crate) beginnings: Places<KnownBeginning>,
}

impl KnownDocuments {
    /// Nothing is known yet. It takes no memory.
    pub fn new(alloc: Global) -> Self {
        KnownDocuments {
            authorities: Places::new(alloc),
            beginnings: Places::new(alloc),
        }
    }

    /// Nothing is known, and nothing is kept, for those who read a single document.
    pub fn none(alloc: Global) -> Self {
        KnownDocuments {
            authorities: Places::none(alloc),
            beginnings: Places::none(alloc),
        }
    }
}
