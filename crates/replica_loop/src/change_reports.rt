//! The changes of a turn: what the files get, and the events once that is on the disk.
use change_view::{TurnTexts, turn_texts};
use closure_core::Closure;
use peer_talks::HeldState;
use replica_connections::{ConnectionTable, Talk};
use replica_events::{ErrorStream, log_change};
use std::alloc::{AllocError, Global};
use std::io::Eprint;

/// What the journal and the audit file get in this turn, in one order; without a Unix second there
/// is no audit file. It also fails for lack of memory if memory ran out when one of the changes was
/// made that the audit file is to have.
pub(crate) fn texts_of_turn<'a, C: Closure>(
    alloc: Global,
    held: &'a HeldState<C>,
    table: &'a ConnectionTable,
    moment: Option<u64>,
) -> Result<TurnTexts<'a>, AllocError> {
    let mut turn = held.turn_lines(alloc)?;
    table.add_lines(&mut turn)?;
    turn_texts(alloc, moment, turn.as_slice())
}

/// Reports what requests have changed in this turn, which is on the disk. What peers brought is
/// reported at the end of their sessions.
pub(crate) fn log_changes<R: Eprint>(
    rt: &R,
    alloc: Global,
    errors: &mut ErrorStream,
    table: &ConnectionTable,
) {
    for conn in table.all() {
        if let Talk::Local(talk) = &conn.talk
            && let Some(change) = talk.change()
        {
            log_change(rt, alloc, errors, change);
        }
    }
}
