//! What a replica answers.
ghost use Rattle.std.specs.Prelude.{◌≡◌};
ghost use Rattle.replica_core.specs.State.{receipts_lacking};
ghost use Rattle.replica_core.specs.Session.{give_of, state_of};

use crate::have_message::Have;
use crate::lent_answer::{Answer, Lacking};
use closure_core::Closure;

/// What the closure answers to the have: the receipts of the bucket that the have does not
/// name, in the order of their lines' bytes, and all records of distrust. It takes no memory.
pub fn answer<'a, C: Closure>(closure: &'a C, have: &'a Have) -> Answer<'a>
    ensures { result ≡ give_of (C.state closure.now).meaning have.now }
{
    Answer {
        bucket: have.bucket(),
        config: closure.config().digest(),
        count: lacking(closure, have).count(),
        records: closure.distrusts().count(),
        distrusts: closure.distrusts(),
        receipts: lacking(closure, have),
    }
}

fn lacking<'a, C: Closure>(closure: &'a C, have: &'a Have) -> Lacking<'a>
    ensures { result ≡ receipts_lacking (state_of (C.state closure.now).meaning) have.now.bucket
        have.now.ids }
{
    Lacking::new(closure.receipts_of(have.bucket()), have.ids())
}
