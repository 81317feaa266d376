//! Haves.
ghost use Rattle.std.specs.Prelude.{◌≡◌, ◌↔◌, IsTrue, MatchOption, map};
ghost use Rattle.std.specs.List.Sorted.{IsStrictlySortedBy};
ghost use Rattle.std.specs.Ordering.{is_lt};
ghost use Rattle.replica_core.specs.State.{id_cmp};

use fed_config::ConfigId;
use receipt_core::ReceiptId;
use std::marker::Model;

/// A have: the ids of the receipts that a replica holds of a bucket, which is the first byte of
/// an id. They rise, so each comes once.
#[derive(Debug, Drop)]
pub struct Have {
    pub(crate) bucket: u8,
    pub(crate) config: ConfigId,
    pub(crate) ids: Vec<ReceiptId>,
}

impl Model for Have {
    ghost use Rattle.std.specs.Prelude.{map};
    ghost use Rattle.replica_core.specs.Session.{HaveMessage, IsHave};

    ghost Value = { HaveMessage };

    ghost view = { λ h. record {
      bucket = h.bucket;
      config = h.config.0;
      ids = map (λ id. id.0) h.ids.items;
    } };

    ghost invariant = { λ h. IsHave
        (record { bucket = h.bucket; config = h.config.0; ids = map (λ id. id.0) h.ids.items }) };
}

impl Have {
    /// A have with these ids. `None` exactly if they do not rise.
    pub fn new(bucket: u8, config: ConfigId, ids: Vec<ReceiptId>) -> Option<Have>
        ensures { MatchOption result (IsStrictlySortedBy id_cmp (map (λ id. id.0) ids.items) → ⊥)
            (λ h. h ≡ record {
              bucket = bucket;
              config = config.0;
              ids = map (λ id. id.0) ids.items;
            }) }
    {
        if is_rising(ids.as_slice()) {
            Some(Have {
                bucket,
                config,
                ids,
            })
        } else {
            None
        }
    }

    /// The bucket.
    pub fn bucket(&self) -> u8
        ensures { result ≡ self.now.bucket }
    {
        self.bucket
    }

    /// The digest of the asker's configuration.
    pub fn config(&self) -> ConfigId
        ensures { result.0 ≡ self.now.config }
    {
        self.config
    }

    /// The ids, sorted.
    pub fn ids(&self) -> &[ReceiptId]
        ensures ids { map (λ id. id.0) result.now ≡ self.now.ids }
        ensures rising { IsStrictlySortedBy id_cmp self.now.ids }
    {
        self.ids.as_slice()
    }
}

fn is_rising(ids: &[ReceiptId]) -> bool
    ensures { IsTrue result ↔ IsStrictlySortedBy id_cmp (map (λ id. id.0) ids.now) }
{
    let mut place = 1;
    'neighbours: while place < ids.len() {
        if !is_below(&ids[place - 1], &ids[place]) {
            return false;
        }
        place += 1;
    }
    true
}

fn is_below(earlier: &ReceiptId, later: &ReceiptId) -> bool
    ensures { result ≡ is_lt (id_cmp earlier.now.0 later.now.0) }
{
    earlier.cmp(later).is_lt()
}
