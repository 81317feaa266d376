//! Bytes that come and go in pieces, and the lines in them.
//!
//! A `Source` gives bytes and a `Sink` takes them; there are some over memory and over std's
//! readers and writers, and some that fail after a number of calls. Unlike std's readers and
//! writers, a device that failed once has failed for good and says so, and a source has less than
//! 2^64 bytes to give. So a call over devices can promise when it reports a failure, and that it
//! ends.
//!
//! A `LineBuf` gives the lines of a source, a `ReadAhead` its bytes in pieces, and `read_up_to` its
//! first bytes. `push_number` and `push_digits` write numbers and digests for lines that are made.
#![tactic(auto)]

mod digits;
mod error;
mod from_read;
mod from_write;
mod fuse_sink;
mod fuse_source;
pub mod laws;
mod line_buf;
mod mem_sink;
mod mem_source;
mod read_ahead;
mod sink;
mod source;

pub use digits::{push_digits, push_number};
pub use error::{DeviceError, Fault, NextLineError, ReadUpToError};
pub use from_read::FromRead;
pub use from_write::FromWrite;
pub use fuse_sink::FuseSink;
pub use fuse_source::FuseSource;
pub use line_buf::{Line, LineBuf};
pub use mem_sink::MemSink;
pub use mem_source::MemSource;
pub use read_ahead::ReadAhead;
pub use sink::{Sink, write_all};
pub use source::{Source, read_up_to};
