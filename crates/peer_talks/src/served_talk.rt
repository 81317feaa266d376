//! A connection on which another replica asks.
use crate::ending::Ending;
use crate::held_state::HeldState;
use crate::named_config::{is_head_short, named_config};
use crate::unread_bytes::UnreadBytes;
use bucket_sums::QuietServing;
use closure_core::Closure;
use fed_config::ConfigId;
use replica_sync::SyncError;
use std::alloc::{AllocError, Global};

/// A connection on which another replica asks, and is answered.
#[derive(Drop)]
pub struct ServedTalk {
    serving: QuietServing,
    // The digest of the configuration under which it is answered, once its first bytes have come.
    digest: Option<ConfigId>,
    rest: UnreadBytes,
    // Whether the other side has sent all that it will.
    has_ended: bool,
}

impl ServedTalk {
    pub fn new(alloc: Global) -> ServedTalk {
        ServedTalk {
            serving: QuietServing::new(alloc),
            digest: None,
            rest: UnreadBytes::new(alloc),
            has_ended: false,
        }
    }

    /// Whether there is room for bytes that come: an answer is written before the next question is
    /// looked at.
    pub fn wants_bytes(&self) -> bool {
        !self.has_ended && self.output().is_empty() && (self.rest.is_empty() || self.awaits_side())
    }

    /// Whether bytes that came can be taken.
    pub fn has_work(&self) -> bool {
        let waits = self.awaits_side() && !self.has_ended;
        !self.rest.is_empty() && !waits && self.output().is_empty()
    }

    // Whether its first bytes have to come.
    fn awaits_side(&self) -> bool {
        self.digest.is_none() && is_head_short(self.rest.left())
    }

    /// Keeps bytes that came.
    pub fn take(&mut self, piece: &[u8]) -> Result<(), AllocError> {
        self.rest.add(piece)
    }

    /// Takes what is left of the bytes that came, up to the end of the sums or of a have. They are
    /// answered with what is held under the configuration that its first bytes named, and with the
    /// sums of that.
    pub fn go_on<C: Closure>(
        &mut self,
        alloc: Global,
        held: &mut HeldState<C>,
    ) -> Result<(), Ending> {
        let piece = self.rest.left();
        let digest = match self.digest {
            Some(digest) => digest,
            None => digest_named(held, piece),
        };
        self.digest = Some(digest);
        let Some(closure) = held.sides.under(digest) else {
            return Err(Ending::Fault(SyncError::ConfigDiffers));
        };
        let used = self.serving.read(alloc, closure, piece)?;
        self.rest.took(used);
        Ok(())
    }

    /// The digest of the configuration under which it is answered, if something was read of it.
    pub fn digest(&self) -> Option<ConfigId> {
        self.digest
    }

    pub fn end_input(&mut self) {
        self.has_ended = true;
    }

    pub fn output(&self) -> &[u8] {
        self.serving.output()
    }

    pub fn wrote(&mut self, count: usize) {
        let count = count.min(self.serving.output().len());
        self.serving.wrote(count);
    }

    /// How it ended, once nothing more is to be read or written.
    pub fn ending(&self) -> Option<Ending> {
        if !self.has_ended || !self.rest.is_empty() || !self.output().is_empty() {
            return None;
        }
        match self.serving.end() {
            Ok(()) => Some(Ending::Well),
            Err(why) => Some(Ending::Fault(why)),
        }
    }
}

// The digest that is named, if it is that of a side. A question that names none of both is refused
// by the next one.
fn digest_named<C: Closure>(held: &HeldState<C>, head: &[u8]) -> ConfigId {
    match named_config(head) {
        Some(digest) if held.sides.side_of(digest).is_some() => digest,
        _ => held.sides.next.config().digest(),
    }
}
