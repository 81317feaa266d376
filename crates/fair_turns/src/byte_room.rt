//! How many bytes may be held together.
ghost use Rattle.std.specs.Prelude.{◌≡◌, ◌+◌, ◌≤◌, ◌↔◌, IsTrue, if◌then◌else◌};
ghost use Rattle.fair_turns.specs.Room.{most_for};

/// Who takes room.
#[derive(Clone, Copy, Debug, PartialEq, Eq)]
pub enum RoomUser {
    /// One that may change something.
    Writer,
    /// One that only looks: a quarter of the room is not for these.
    Reader,
}

/// How many bytes are held, and how many may be.
#[derive(Clone, Copy, Debug)]
pub struct ByteRoom {
    most: u64,
    held: u64,
}

impl ByteRoom {
    /// `held` bytes are held, and at most `most` may be.
    pub fn new(most: u64, held: u64) -> ByteRoom
        ensures most { result.most ≡ most }
        ensures held { result.held ≡ held }
    {
        ByteRoom { most, held }
    }

    /// Takes room for this many more bytes. Returns whether there is room for all of them; else
    /// none is taken.
    pub fn take(&mut self, user: RoomUser, bytes: u64) -> bool
        ensures taken { IsTrue result ↔ (self.old.held + bytes ≤ most_for self.old.most user) }
        ensures held { self.new.held ≡ (if result then self.old.held + bytes else self.old.held) }
        ensures most { self.new.most ≡ self.old.most }
    {
        let most = self.most_for(user);
        let has_room = self.held <= most && bytes <= most - self.held;
        if has_room {
            self.held += bytes;
        }
        has_room
    }

    fn most_for(&self, user: RoomUser) -> u64
        ensures { result ≡ most_for self.now.most user }
    {
        match user {
            RoomUser::Writer => self.most,
            RoomUser::Reader => self.most - self.most / 4,
        }
    }
}
