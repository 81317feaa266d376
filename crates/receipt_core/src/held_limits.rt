//! How much a replica may hold under a configuration.
ghost use Rattle.std.specs.Prelude.{◌≡◌, ◌≤◌, ℕ};
ghost use Rattle.receipt_core.specs.Limits.{receipt_limit, record_limit};
ghost use Rattle.receipt_core.specs.Limits.{most_receipts, most_records};

use fed_config::Config;

/// The highest limit of receipts.
pub const MOST_RECEIPTS: usize = 4_194_304;

/// The highest limit of records of distrust.
pub const MOST_RECORDS: usize = 65_536;

/// The most receipts that are held under the configuration: what its limits say, but at least 1 and
/// at most 4,194,304.
pub fn receipt_limit(config: &Config) -> usize
    ensures limit { result ≡ receipt_limit config.now }
    ensures most { receipt_limit config.now ≤ most_receipts }
{
    config.limits().receipts.min(MOST_RECEIPTS).max(1)
}

/// The most records of distrust that are held under the configuration: what its limits say, but at
/// least 1 and at most 65,536.
pub fn record_limit(config: &Config) -> usize
    ensures limit { result ≡ record_limit config.now }
    ensures most { record_limit config.now ≤ most_records }
{
    config.limits().records.min(MOST_RECORDS).max(1)
}
