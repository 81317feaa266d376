//! What a replica holds, carried over to another configuration. `specs/Carry` says what goes along
//! and what is reported; `specs/Inside/Carrying` is for private clauses.
ghost use Rattle.std.specs.Prelude.{◌≡◌, ◌||◌, ◌⊎◌, ◌≤◌, [], IfOk, IsErr};
ghost use Rattle.std.specs.Io.KnownBytes.{Appends};
ghost use Rattle.byte_lines.specs.Device.{AppendsBeginning, is_source_fault};
ghost use Rattle.fed_config.specs.Configuration.{HasDomain, IsConfiguration};
ghost use Rattle.receipt_core.specs.Acceptance.{IsFitting};
ghost use Rattle.closure_core.specs.Changes.{empty_of};
ghost use Rattle.closure_core.specs.Refusals.{IsOneTooMany, IsOneRecordTooMany};
ghost use Rattle.receipt_core.specs.Limits.{most_receipts, most_records};
ghost use Rattle.migration.specs.Carry.{CarriesOver, StopsCarrying, chosen_receipts, config_for};
ghost use Rattle.migration.specs.Carry.{ReportsReceipt, ReportsRecord, left_receipt, left_record};
ghost use Rattle.migration.specs.Inside.Carrying.{SortsItem, StopsAtItem, HasSorted, StopsSorting};
ghost use Rattle.migration.specs.Inside.Carrying.{sink_run};

use crate::left_out::left_out_line;
use byte_lines::{DeviceError, Sink, write_all};
use closure_core::{Closure, TakeError};
use fed_config::Config;
use jwk_set::KeyId;
use receipt_core::Receipt;
use spiffe_name::TrustDomain;
use std::alloc::{AllocError, Global};

/// What is to be carried over.
#[derive(Clone, Copy, Debug, PartialEq, Eq)]
pub enum Choice {
    /// Receipts and records of distrust.
    All,
    /// Only records of distrust.
    RecordsOnly,
}

/// What was carried over.
#[derive(Drop)]
pub struct Carried<C> {
    /// What is held under the other configuration.
    pub closure: C,
    /// How many lines were written, each of a record or a receipt that was left out.
    pub left_out: u64,
}

/// Carries over what is held to another configuration: every record of distrust whose domain that
/// configuration has, and, if they are chosen, every receipt that fits it. What is held does not
/// change. For each chosen record and receipt that is left out it writes a line on `lines`, records
/// first and each in the order in which they are held.
///
/// | Line | Cause |
/// |---|---|
/// | `left out record <key id> of <domain>: unknown domain` | the configuration does not have the
/// record's domain |
/// | `left out receipt <receipt id> of <domain>: unknown domain` | it has no relationship with the
/// receipt's domain |
/// | `left out receipt <receipt id> of <domain>: wrong endpoint` | the relationship has another
/// endpoint |
/// | `left out receipt <receipt id> of <domain>: below floor` | the document is below the floor of
/// the receipt's domain |
///
/// The new closure has the limits of the old one: what is carried over is never too much, since all
/// of it was held.
///
/// # Errors
/// A beginning of the lines was written.
/// - [`DeviceError::Io`]: `lines` failed,
/// - [`DeviceError::NoMemory`]: memory ran out.
pub fn carry<C: Closure, E: Sink>(
    alloc: Global,
    held: &C,
    config: &Config,
    choice: Choice,
    lines: &mut E,
) -> Result<Carried<C>, DeviceError>
    ensures carried { IfOk result (λ carried. CarriesOver
        (record {
          choice = choice;
          config = config_for (C.state held.now).meaning config.now;
          old = (C.state held.now).meaning;
          before = E.contents lines.old;
          after = E.contents lines.new;
        }) (C.state carried.closure).meaning carried.left_out) }
    ensures stops { IsErr result → StopsCarrying
        (record {
          choice = choice;
          config = config_for (C.state held.now).meaning config.now;
          old = (C.state held.now).meaning;
          before = E.contents lines.old;
          after = E.contents lines.new;
        }) }

    // An error of the sink is reported exactly if the sink failed in this call.
    ensures fault { E.has_failed lines.new ≡ (is_source_fault result || E.has_failed lines.old) }
{
    let mut closure = empty_closure(alloc, held, config)?;
    let records = carry_records(alloc, held, &mut closure, lines)?;
    let receipts = carry_chosen(alloc, held, choice, &mut closure, lines)?;
    let _valid = closure.config();
    Ok(Carried {
        closure,
        left_out: records + receipts,
    })
}

// A closure of the other configuration that has a place for all that is held.
fn empty_closure<C: Closure>(alloc: Global, held: &C, config: &Config) -> Result<C, AllocError>
    ensures meaning { IfOk result (λ c. (C.state c).meaning
        ≡ empty_of (config_for (C.state held.now).meaning config.now)) }
    ensures form { IfOk result (λ c. IsConfiguration (C.state c).meaning.config) }
{
    let mut config = config.try_clone(alloc)?;
    config.set_limits(held.config().limits());
    let _form = config.domains();
    C::new(alloc, &config)
}

// Goes over the chosen receipts in their order.
fn carry_chosen<C: Closure, E: Sink>(
    alloc: Global,
    held: &C,
    choice: Choice,
    closure: &mut C,
    lines: &mut E,
) -> Result<u64, DeviceError>
    requires config { IsConfiguration (C.state closure.old).meaning.config }
    requires none { (C.state closure.old).meaning.held ≡ [] }
    requires limits { (C.state closure.old).meaning.config.limits
        ≡ (C.state held.now).meaning.config.limits }
    ensures ok { IfOk result (λ n. HasSorted
        (IsFitting (C.state closure.old).meaning.config)
        (ReportsReceipt (C.state closure.old).meaning.config)
        (chosen_receipts choice (C.state held.now).meaning) (C.state closure.new).meaning.held
        (sink_run (E.contents lines.old) (E.contents lines.new)) n) }
    ensures few { IfOk result (λ n. n ≤ most_receipts) }
    ensures config { (C.state closure.new).meaning.config ≡ (C.state closure.old).meaning.config }
    ensures records { (C.state closure.new).meaning.records
        ≡ (C.state closure.old).meaning.records }
    ensures stops { IsErr result → StopsSorting
        (IsFitting (C.state closure.old).meaning.config)
        (ReportsReceipt (C.state closure.old).meaning.config)
        (chosen_receipts choice (C.state held.now).meaning)
        (sink_run (E.contents lines.old) (E.contents lines.new)) }
    ensures fault { E.has_failed lines.new ≡ (is_source_fault result || E.has_failed lines.old) }
{
    match choice {
        Choice::All => carry_receipts(alloc, held, closure, lines),
        Choice::RecordsOnly => Ok(0),
    }
}

// Goes over the records in their order.
fn carry_records<C: Closure, E: Sink>(
    alloc: Global,
    held: &C,
    closure: &mut C,
    lines: &mut E,
) -> Result<u64, DeviceError>
    requires none { (C.state closure.old).meaning.records ≡ [] }
    requires limits { (C.state closure.old).meaning.config.limits
        ≡ (C.state held.now).meaning.config.limits }
    ensures ok { IfOk result (λ n. HasSorted
        (λ x. HasDomain (C.state closure.old).meaning.config x.domain)
        (ReportsRecord (C.state closure.old).meaning.config)
        (C.state held.now).meaning.records (C.state closure.new).meaning.records
        (sink_run (E.contents lines.old) (E.contents lines.new)) n) }
    ensures few { IfOk result (λ n. n ≤ most_records) }
    ensures config { (C.state closure.new).meaning.config ≡ (C.state closure.old).meaning.config }
    ensures held { (C.state closure.new).meaning.held ≡ (C.state closure.old).meaning.held }
    ensures stops { IsErr result → StopsSorting
        (λ x. HasDomain (C.state closure.old).meaning.config x.domain)
        (ReportsRecord (C.state closure.old).meaning.config)
        (C.state held.now).meaning.records
        (sink_run (E.contents lines.old) (E.contents lines.new)) }
    ensures fault { E.has_failed lines.new ≡ (is_source_fault result || E.has_failed lines.old) }
{
    let _valid = held.config();
    let mut count = 0u64;
    'records: for (domain, key) in held.distrusts() {
        count += carry_record(alloc, domain, *key, closure, lines)?;
    }
    Ok(count)
}

// Goes over the receipts in their order.
fn carry_receipts<C: Closure, E: Sink>(
    alloc: Global,
    held: &C,
    closure: &mut C,
    lines: &mut E,
) -> Result<u64, DeviceError>
    requires config { IsConfiguration (C.state closure.old).meaning.config }
    requires none { (C.state closure.old).meaning.held ≡ [] }
    requires limits { (C.state closure.old).meaning.config.limits
        ≡ (C.state held.now).meaning.config.limits }
    ensures ok { IfOk result (λ n. HasSorted
        (IsFitting (C.state closure.old).meaning.config)
        (ReportsReceipt (C.state closure.old).meaning.config)
        (C.state held.now).meaning.held (C.state closure.new).meaning.held
        (sink_run (E.contents lines.old) (E.contents lines.new)) n) }
    ensures few { IfOk result (λ n. n ≤ most_receipts) }
    ensures config { (C.state closure.new).meaning.config ≡ (C.state closure.old).meaning.config }
    ensures records { (C.state closure.new).meaning.records
        ≡ (C.state closure.old).meaning.records }
    ensures stops { IsErr result → StopsSorting
        (IsFitting (C.state closure.old).meaning.config)
        (ReportsReceipt (C.state closure.old).meaning.config)
        (C.state held.now).meaning.held
        (sink_run (E.contents lines.old) (E.contents lines.new)) }
    ensures fault { E.has_failed lines.new ≡ (is_source_fault result || E.has_failed lines.old) }
{
    let _valid = held.config();
    let mut count = 0u64;
    'receipts: for receipt in held.receipts() {
        count += carry_receipt(alloc, receipt, closure, lines)?;
    }
    Ok(count)
}

fn carry_record<C: Closure, E: Sink>(
    alloc: Global,
    domain: &TrustDomain,
    key: KeyId,
    closure: &mut C,
    lines: &mut E,
) -> Result<u64, DeviceError>
    requires place { IsOneRecordTooMany (C.state closure.old).meaning
        (record { domain = domain.now; key = key }) → ⊥ }
    ensures ok { IfOk result (SortsItem
        (λ x. HasDomain (C.state closure.old).meaning.config x.domain)
        (ReportsRecord (C.state closure.old).meaning.config)
        (record { domain = domain.now; key = key })
        (C.state closure.old).meaning.records (C.state closure.new).meaning.records
        (sink_run (E.contents lines.old) (E.contents lines.new))) }
    ensures config { (C.state closure.new).meaning.config ≡ (C.state closure.old).meaning.config }
    ensures held { (C.state closure.new).meaning.held ≡ (C.state closure.old).meaning.held }
    ensures stops { IsErr result → StopsAtItem
        (ReportsRecord (C.state closure.old).meaning.config)
        (record { domain = domain.now; key = key })
        (sink_run (E.contents lines.old) (E.contents lines.new)) }
    ensures fault { E.has_failed lines.new ≡ (is_source_fault result || E.has_failed lines.old) }
{
    receipt_core::laws::sets();
    let _valid = closure.config();
    match closure.distrust(domain, key) {
        Ok(_) => Ok(0),
        Err(TakeError::UnknownDomain) => leave_out_record(alloc, domain, &key, lines),
        Err(_) => unreachable!(),
    }
}

fn carry_receipt<C: Closure, E: Sink>(
    alloc: Global,
    receipt: &Receipt,
    closure: &mut C,
    lines: &mut E,
) -> Result<u64, DeviceError>
    requires config { IsConfiguration (C.state closure.old).meaning.config }
    requires place { IsOneTooMany (C.state closure.old).meaning receipt.now → ⊥ }
    ensures ok { IfOk result (SortsItem
        (IsFitting (C.state closure.old).meaning.config)
        (ReportsReceipt (C.state closure.old).meaning.config) receipt.now
        (C.state closure.old).meaning.held (C.state closure.new).meaning.held
        (sink_run (E.contents lines.old) (E.contents lines.new))) }
    ensures config { (C.state closure.new).meaning.config ≡ (C.state closure.old).meaning.config }
    ensures records { (C.state closure.new).meaning.records
        ≡ (C.state closure.old).meaning.records }
    ensures stops { IsErr result → StopsAtItem
        (ReportsReceipt (C.state closure.old).meaning.config) receipt.now
        (sink_run (E.contents lines.old) (E.contents lines.new)) }
    ensures fault { E.has_failed lines.new ≡ (is_source_fault result || E.has_failed lines.old) }
{
    receipt_core::laws::sets();
    let _valid = closure.config();
    let _form = receipt.domain();
    let refused = match closure.take(receipt.try_clone(alloc)?) {
        Ok(_) => return Ok(0),
        Err(refused) => refused,
    };
    match refused.why {
        TakeError::UnknownDomain => leave_out_receipt(alloc, receipt, b": unknown domain\n", lines),
        TakeError::WrongEndpoint => leave_out_receipt(alloc, receipt, b": wrong endpoint\n", lines),
        TakeError::BelowFloor => leave_out_receipt(alloc, receipt, b": below floor\n", lines),
        TakeError::NoMemory => Err(DeviceError::NoMemory),
        TakeError::Full | TakeError::ConfigDiffers => unreachable!(),
    }
}

// Writes the record's line.
fn leave_out_record<E: Sink>(
    alloc: Global,
    domain: &TrustDomain,
    key: &KeyId,
    lines: &mut E,
) -> Result<u64, DeviceError>
    ensures ok { IfOk result (λ n. (n ≡ 1)
        × Appends (E.contents lines.old) (E.contents lines.new)
        (left_record (record { domain = domain.now; key = key.now }))) }
    ensures begun { IsErr result → (E.contents lines.new ≡ E.contents lines.old)
        ⊎ AppendsBeginning (E.contents lines.old) (E.contents lines.new)
        (left_record (record { domain = domain.now; key = key.now })) }
    ensures fault { E.has_failed lines.new ≡ (is_source_fault result || E.has_failed lines.old) }
{
    let cause = b": unknown domain\n";
    let line = left_out_line(alloc, b"left out record ", &key.0, domain, cause)?;
    write_all(lines, line.as_slice())?;
    Ok(1)
}

// Writes the receipt's line.
fn leave_out_receipt<E: Sink>(
    alloc: Global,
    receipt: &Receipt,
    cause: &[u8],
    lines: &mut E,
) -> Result<u64, DeviceError>
    ensures ok { IfOk result (λ n. (n ≡ 1)
        × Appends (E.contents lines.old) (E.contents lines.new)
        (left_receipt receipt.now cause.now)) }
    ensures begun { IsErr result → (E.contents lines.new ≡ E.contents lines.old)
        ⊎ AppendsBeginning (E.contents lines.old) (E.contents lines.new)
        (left_receipt receipt.now cause.now) }
    ensures fault { E.has_failed lines.new ≡ (is_source_fault result || E.has_failed lines.old) }
{
    let id = receipt.id();
    let line = left_out_line(alloc, b"left out receipt ", &id.0, receipt.domain(), cause)?;
    write_all(lines, line.as_slice())?;
    Ok(1)
}
