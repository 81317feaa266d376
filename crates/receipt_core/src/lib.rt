//! Receipts: what a replica notes of a bundle document that it fetched, and of a key that it
//! distrusts.
//!
//! A `Receipt` and a record of distrust (`Distrust`) have one line of text each, which is read
//! exactly. A document offers triples, a receipt needs one, and `check_chain` follows them from the
//! configuration to a document, for somebody who keeps no receipts.
#![tactic(auto)]

mod chain;
mod distrust;
mod floor_check;
mod given_records;
mod held_limits;
pub mod laws;
mod line;
mod line_error;
mod line_reader;
mod members;
mod offers;
mod receipt;
mod receipt_id;
mod record_line;
mod triple;

pub use byte_lines::{
    DeviceError, Fault, FromRead, FromWrite, FuseSink, FuseSource, Line, LineBuf, MemSink,
    MemSource, NextLineError, ReadUpToError, Sink, Source, read_up_to, write_all,
};
pub use chain::check_chain;
pub use distrust::Distrust;
pub use floor_check::reaches_floor;
pub use held_limits::{MOST_RECEIPTS, MOST_RECORDS, receipt_limit, record_limit};
pub use line_error::LineError;
pub use line_reader::MAX_LINE_BYTES;
pub use offers::offers_of;
pub use receipt::Receipt;
pub use receipt_id::ReceiptId;
pub use triple::Triple;
