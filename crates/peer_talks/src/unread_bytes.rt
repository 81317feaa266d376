//! Bytes that were read and are taken later.
ghost use Rattle.std.specs.Prelude.{◌≡◌, ◌++◌, [], ◌↔◌, IsTrue, OnErr, OnOk, drop};
ghost use Rattle.peer_talks.specs.Unread.{untaken};

use std::alloc::{AllocError, Global};

/// Bytes that were read from a connection and not taken yet.
#[derive(Drop)]
pub(crate) struct UnreadBytes {
    bytes: Vec<u8>,
    used: usize,
}

impl UnreadBytes {
    pub(crate) fn new(alloc: Global) -> UnreadBytes
        ensures { untaken result ≡ [] }
    {
        UnreadBytes {
            bytes: Vec::new(alloc),
            used: 0,
        }
    }

    pub(crate) fn left(&self) -> &[u8]
        ensures { result.now ≡ untaken self.now }
    {
        let used = self.used.min(self.bytes.len());
        &self.bytes[used..]
    }

    pub(crate) fn is_empty(&self) -> bool
        ensures { IsTrue result ↔ (untaken self.now ≡ []) }
    {
        self.left().is_empty()
    }

    /// Keeps the bytes in the place of what it kept.
    pub(crate) fn keep(&mut self, bytes: &[u8]) -> Result<(), AllocError>
        ensures kept { OnOk result (untaken self.new ≡ bytes.now) }
        ensures refused { OnErr result (untaken self.new ≡ []) }
    {
        self.bytes.clear();
        self.used = 0;
        self.bytes.extend_from_slice(bytes)
    }

    /// Keeps the bytes behind what is left.
    pub(crate) fn add(&mut self, bytes: &[u8]) -> Result<(), AllocError>
        ensures kept { OnOk result (untaken self.new ≡ untaken self.old ++ bytes.now) }
        ensures refused { OnErr result (untaken self.new ≡ untaken self.old) }
    {
        if self.is_empty() {
            return self.keep(bytes);
        }
        self.bytes.extend_from_slice(bytes)
    }

    /// This many of the bytes that are left were taken.
    pub(crate) fn took(&mut self, count: usize)
        ensures { untaken self.new ≡ drop count (untaken self.old) }
    {
        self.used = self.used.saturating_add(count);
        if self.is_empty() {
            self.bytes = Vec::new(*self.bytes.allocator());
            self.used = 0;
        }
    }
}
