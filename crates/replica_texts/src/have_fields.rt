//! What the lines of haves say.
ghost use Rattle.std.specs.Prelude.{◌≡◌, ◌<◌, ◌%◌};

use fed_config::ConfigId;
use replica_core::Have;

/// What the line of a have says, of whatever format and number of buckets. The bucket is one of the
/// number of buckets that the line names; the bucket of the have itself is this bucket modulo 256.
#[derive(Debug, Drop)]
pub(crate) struct VersionedHave {
    pub(crate) bucket: u64,
    pub(crate) have: Have,
    pub(crate) format: u64,
    pub(crate) buckets: u64,
    ghost below: { bucket < buckets },
    ghost low: { have.bucket ≡ bucket % 256 },
}

/// The parts of a line, if it is a have's.
#[derive(Clone, Copy)]
pub(crate) struct HaveFields<'a> {
    pub(crate) bucket: u64,
    pub(crate) config: ConfigId,
    pub(crate) format: u64,
    pub(crate) ids: &'a [u8],
    pub(crate) buckets: u64,
}
