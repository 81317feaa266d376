//! Answers, as they were read.
ghost use Rattle.std.specs.Prelude.{◌≡◌};

use fed_config::ConfigId;
use receipt_core::{Distrust, Receipt};
use std::marker::Model;

/// An answer of another replica, as it was read: records of distrust and receipts, each in the
/// order of their lines. It may be any list of both; what of it fits a closure is found when it is
/// taken.
#[derive(Debug, Drop)]
pub struct Give {
    pub(crate) bucket: u8,
    pub(crate) config: ConfigId,
    pub(crate) distrusts: Vec<Distrust>,
    pub(crate) receipts: Vec<Receipt>,
}

impl Model for Give {
    ghost use Rattle.replica_core.specs.Session.{GiveMessage};

    ghost Value = { GiveMessage };

    ghost view = { λ g. record {
      bucket = g.bucket;
      config = g.config.0;
      content = record { held = g.receipts.items; records = g.distrusts.items };
    } };
}

impl Give {
    /// The answer about a bucket that has these records and receipts, of a replica whose
    /// configuration has this digest.
    pub fn new(
        bucket: u8,
        config: ConfigId,
        distrusts: Vec<Distrust>,
        receipts: Vec<Receipt>,
    ) -> Give
        ensures { result ≡ record {
          bucket = bucket;
          config = config.0;
          content = record { held = receipts.items; records = distrusts.items };
        } }
    {
        Give {
            bucket,
            config,
            distrusts,
            receipts,
        }
    }

    /// The bucket.
    pub fn bucket(&self) -> u8
        ensures { result ≡ self.now.bucket }
    {
        self.bucket
    }

    /// The digest of the answerer's configuration.
    pub fn config(&self) -> ConfigId
        ensures { result.0 ≡ self.now.config }
    {
        self.config
    }

    /// The records of distrust, in the order of their lines.
    pub fn distrusts(&self) -> &[Distrust]
        ensures { result.now ≡ self.now.content.records }
    {
        self.distrusts.as_slice()
    }

    /// The receipts, in the order of their lines.
    pub fn receipts(&self) -> &[Receipt]
        ensures { result.now ≡ self.now.content.held }
    {
        self.receipts.as_slice()
    }
}
