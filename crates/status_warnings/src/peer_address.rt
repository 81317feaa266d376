//! The address of a peer, as a text.
ghost use Rattle.std.specs.Prelude.{◌≡◌, IfOk, List, ℕ, string_bytes};

use std::alloc::{AllocError, Global};
use std::marker::Model;

/// The address of a peer, as an IP address and a port.
#[derive(Debug, Drop)]
pub struct PeerAddress {
    text: String,
}

impl Model for PeerAddress {
    ghost Value = { List ℕ };

    ghost view = { λ address. string_bytes address.text };
}

impl PeerAddress {
    /// The address that the text says.
    ///
    /// # Errors
    /// Memory ran out.
    pub fn new(alloc: Global, text: &str) -> Result<PeerAddress, AllocError>
        ensures { IfOk result (λ address. address ≡ text.now) }
    {
        Ok(PeerAddress {
            text: String::from_str(alloc, text)?,
        })
    }

    /// Its text.
    pub fn as_str(&self) -> &str
        ensures { result.now ≡ self.now }
    {
        self.text.as_str()
    }
}
