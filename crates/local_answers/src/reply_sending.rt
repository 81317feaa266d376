//! A reply on its way.
ghost use Rattle.std.specs.Prelude.{◌≡◌, ◌↔◌, ◌<◌, ◌≤◌, ◌++◌, [], IsTrue, drop, length, vec_len};

use crate::reply::Reply;
use state_steps::OnDisk;

/// A reply that is being sent. Its lines of the journal come first: nothing of the reply may be
/// sent before they are on the disk.
#[derive(Drop)]
pub struct Sending {
    reply: Reply,
    head_sent: usize,
    output_sent: usize,
    errors_sent: usize,
    ghost head: { head_sent ≤ vec_len reply.head },
    ghost output: { output_sent ≤ vec_len reply.output },
    ghost errors: { errors_sent ≤ vec_len reply.errors },
}

impl Sending {
    ghost use Rattle.local_answers.specs.Sending.{DifferInJournalAlone, due_part, first_filled};
    ghost use Rattle.local_answers.specs.Sending.{left_of_errors};
    ghost use Rattle.local_answers.specs.Sending.{left_of_head, left_of_output, unsent};

    /// Nothing of the reply is sent yet.
    pub fn new(reply: Reply) -> Sending
        ensures reply { result.reply ≡ reply }
        ensures unsent { unsent result
            ≡ reply.head.items ++ (reply.output.items ++ reply.errors.items) }
    {
        Sending {
            reply,
            head_sent: 0,
            output_sent: 0,
            errors_sent: 0,
        }
    }

    /// The lines that are to be on the disk before anything is sent; none once they are there.
    pub fn journal(&self) -> &[u8]
        ensures { result.now ≡ self.now.reply.journal.items }
    {
        self.reply.journal.as_slice()
    }

    /// Whether the replica is to end, once the reply is sent.
    pub fn ends(&self) -> bool
        ensures { result ≡ self.now.reply.ends }
    {
        self.reply.ends
    }

    /// Says that the lines are on the disk, of which the token is the proof: from now on the reply
    /// has no lines, and nothing else changes.
    pub fn settle(&mut self, _on_disk: &OnDisk)
        ensures settled { self.new.reply.journal.items ≡ [] }
        ensures unsent { unsent self.new ≡ unsent self.old }
        ensures rest { DifferInJournalAlone self.old self.new }
    {
        self.reply.journal.clear();
    }

    /// Whether a byte of the reply was sent: its first line, which comes first, has some.
    pub fn has_begun(&self) -> bool
        ensures { IsTrue result ↔ (0 < self.now.head_sent) }
    {
        self.head_sent > 0
    }

    /// What is to be sent next: nothing as long as lines of the journal are not on the disk.
    pub fn output(&self) -> &[u8]
        ensures { result.now ≡ due_part self.now }
    {
        if self.reply.journal.is_empty() {
            self.next_part()
        } else {
            b"".as_slice()
        }
    }

    fn next_part(&self) -> &[u8]
        ensures { result.now ≡ first_filled (left_of_head self.now) (left_of_output self.now)
            (left_of_errors self.now) }
    {
        let head = &self.reply.head[self.head_sent..];
        if !head.is_empty() {
            return head;
        }
        let output = &self.reply.output[self.output_sent..];
        if !output.is_empty() {
            return output;
        }
        &self.reply.errors[self.errors_sent..]
    }

    /// Says that the first `count` bytes of what was to be sent were sent.
    pub fn wrote(&mut self, count: usize)
        requires { count ≤ length (due_part self.old) }
        ensures reply { self.new.reply ≡ self.old.reply }
        ensures sent { unsent self.new ≡ drop count (unsent self.old) }
    {
        if !self.reply.journal.is_empty() {
            return;
        }
        if self.head_sent < self.reply.head.len() {
            self.head_sent += count;
        } else if self.output_sent < self.reply.output.len() {
            self.output_sent += count;
        } else {
            self.errors_sent += count;
        }
    }
}
