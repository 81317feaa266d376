//! What labels mean.
ghost use Rattle.std.specs.Prelude.{◌≡◌, ◌↔◌, IsTrue};
ghost use Rattle.std.specs.Ordering.{nat_cmp, ordering_then};
ghost use Rattle.std.specs.Cmp.Lexicographic.{slice_cmp};
ghost use Rattle.label_index.specs.Labels.{label_cmp, cmp_to_key};

use bundle_doc::DocId;
use jwk_set::KeyId;
use sorted_order::{Agreed, ItemGuess, ItemProbe};
use std::cmp::Ordering;

/// A key of a document of a trust domain, by the domain's number and by the ids of the document and
/// of the key.
#[derive(Clone, Copy, Debug, PartialEq, Eq)]
pub struct Label {
    /// The number of the domain. What it numbers is for the caller to say.
    pub domain: u32,
    /// The id of the document.
    pub document: DocId,
    /// The id of the key.
    pub key: KeyId,
}

/// Which labels are meant.
pub trait LabelTest {
    ghost use Rattle.label_index.specs.declared.label.Label.{Label};

    // Whether a label is meant.
    ghost IsMeant: { Self → Label → Type 0 };

    /// Whether the label is meant.
    fn is_meant(&self, label: &Label) -> bool
        ensures { IsTrue result ↔ IsMeant self.now label.now };
}

/// Seeks a label.
#[derive(Drop)]
pub(crate) struct SoughtLabel {
    pub(crate) label: Label,
}

impl ItemProbe<Label> for SoughtLabel {
    ghost use Rattle.label_index.specs.Labels.{label_cmp};

    ghost compared = { λ sought item. label_cmp item sought.label };

    fn compare(&self, item: &Label) -> Ordering {
        match item.domain.cmp(&self.label.domain) {
            Ordering::Equal => compare_ids(item, &self.label),
            unequal => unequal,
        }
    }
}

impl ItemGuess<Label> for SoughtLabel {
    // The first bits of what labels are ordered by, in that order. A configuration has at most
    // 1,024 domains.
    fn hint(&self) -> u64 {
        let domain = u64::from(self.label.domain).min(1023);
        (domain << 54) | (front_of(&self.label.key.0) << 27) | front_of(&self.label.document.0)
    }

    fn guess(&self, item: &Label, _agreed: Agreed) -> (bool, usize) {
        (self.compare(item).is_lt(), 0)
    }
}

/// The first 27 bits of a digest.
fn front_of(digest: &[u8; 32]) -> u64 {
    u64::from(u32::from_be_bytes([digest[0], digest[1], digest[2], digest[3]]) >> 5)
}

// Labels of one domain are ordered by the key, and by the document if that is the same: those of a
// key are together.
fn compare_ids(a: &Label, b: &Label) -> Ordering
    ensures { result ≡ ordering_then (slice_cmp nat_cmp a.now.key.0 b.now.key.0)
        (slice_cmp nat_cmp a.now.document.0 b.now.document.0) }
{
    match a.key.cmp(&b.key) {
        Ordering::Equal => a.document.cmp(&b.document),
        unequal => unequal,
    }
}

/// Seeks the labels of a key in a domain, of whatever document.
#[derive(Drop)]
pub(crate) struct SoughtKey {
    pub(crate) domain: u32,
    pub(crate) key: KeyId,
}

impl ItemProbe<Label> for SoughtKey {
    ghost use Rattle.label_index.specs.Labels.{cmp_to_key};

    ghost compared = { λ sought item. cmp_to_key sought.domain sought.key item };

    fn compare(&self, item: &Label) -> Ordering {
        match item.domain.cmp(&self.domain) {
            Ordering::Equal => item.key.cmp(&self.key),
            unequal => unequal,
        }
    }
}
