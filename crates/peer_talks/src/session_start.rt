//! How a session begins in which this replica asks, and whether the other side answered.
use side_by_side::Side;

/// How a session begins.
#[derive(Clone, Copy, Debug, PartialEq, Eq)]
pub enum SessionStart {
    /// With sums, and then haves about the buckets that differ.
    Sums,
    /// With haves about all buckets: the peer does not know sums.
    Haves,
}

/// One of the ways to ask a peer.
#[derive(Clone, Copy, Debug, PartialEq, Eq)]
pub struct AskedWay {
    pub start: SessionStart,
    /// Under which configuration.
    pub side: Side,
}

impl AskedWay {
    /// The first way: with sums, if the peer may know them, and under the next configuration.
    pub(crate) fn first(start: SessionStart) -> AskedWay {
        AskedWay {
            start,
            side: Side::Next,
        }
    }

    /// The way that comes after this one if the peer does not answer: under the previous
    /// configuration, if there is one, and then both without sums.
    pub(crate) fn after(self, has_previous: bool) -> Option<AskedWay> {
        match (self.start, self.side) {
            (start, Side::Next) if has_previous => Some(AskedWay {
                start,
                side: Side::Previous,
            }),
            (SessionStart::Sums, _) => Some(AskedWay::first(SessionStart::Haves)),
            (SessionStart::Haves, _) => None,
        }
    }
}

/// What the other side answered.
#[derive(Clone, Copy, Debug, PartialEq, Eq)]
pub enum PeerAnswer {
    /// Not a byte.
    Nothing,
    /// Some bytes.
    Came,
}
