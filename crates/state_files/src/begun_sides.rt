//! What a replica that keeps running holds at its beginning, under one configuration or two.
use crate::load::load_state;
use crate::previous_state::load_previous;
use closure_core::{Closure, TakeError};
use command_exits::CommandError;
use fed_config::Config;
use progress_line::ProgressMode;
use replica_core::SyncError;
use side_by_side::{Offered, Side, Sides, offer_held};
use state_steps::NewFate;
use std::alloc::{AllocError, Global};
use std::fs::Files;
use std::io::Eprint;
use std::time::Clock;

/// The configuration of a replica, and the one that it changes from, if there is one.
#[derive(Debug, Drop)]
pub struct GivenConfigs {
    pub next: Config,
    pub previous: Option<Config>,
}

/// What a replica holds at its beginning.
#[derive(Drop)]
pub struct BegunSides<C> {
    /// What it holds under each configuration.
    pub sides: Sides<C>,
    /// The lines of the next side that the state's files do not have.
    pub fresh: Vec<u8>,
    /// If the state is one of the previous configuration, what came of its lines: it is carried
    /// over when it is saved.
    pub carried: Option<Offered>,
}

/// What the state's files hold, under each configuration. Each side was offered all that the other
/// holds. The state is one of the next configuration or, if there is one, of the previous
/// one; what the other one held is in the file that a carry-over left, if there is one, or in its
/// new file, if that has this fate. If that file is of the configuration of a state that is to be
/// carried over, both are held: an older state was put back.
///
/// # Errors
/// - Those of [`load_state`]: if the state is of neither configuration, the one of the next one,
/// - [`CommandError::Sync`]: the file that a carry-over left is refused, or has lines for which
///   there is no place.
pub(crate) fn load_sides<C: Closure, R: Files + Clock + Eprint>(
    rt: &R,
    alloc: Global,
    configs: &GivenConfigs,
    path: &str,
    fate: Option<NewFate>,
    mode: ProgressMode,
) -> Result<BegunSides<C>, CommandError> {
    let loaded = load_state(rt, alloc, &configs.next, path, mode);
    let Some(previous) = &configs.previous else {
        return Ok(one_side(alloc, loaded?));
    };
    match loaded {
        Ok(next) => {
            let previous: C = load_previous(rt, alloc, previous, path, fate, mode)?;
            let sides = Sides {
                next,
                previous: Some(previous),
            };
            Ok(both_sides(alloc, sides)?)
        }
        Err(why) if differs(&why) => {
            let held: C = match load_state(rt, alloc, previous, path, mode) {
                Err(other) if differs(&other) => return Err(why),
                loaded => loaded?,
            };
            let kept: C = load_previous(rt, alloc, previous, path, None, mode)?;
            let sides = Sides {
                next: load_previous(rt, alloc, &configs.next, path, fate, mode)?,
                previous: Some(with_kept(alloc, held, &kept)?),
            };
            Ok(carried_sides(alloc, sides)?)
        }
        Err(why) => Err(why),
    }
}

// What is held, with all that the file has that a carry-over left of the same configuration. Lines
// without a place would be lost when that file is replaced.
fn with_kept<C: Closure>(alloc: Global, mut held: C, kept: &C) -> Result<C, CommandError> {
    let mut unkept = Vec::new(alloc);
    let offered = offer_held(alloc, kept, &mut held, &mut unkept)?;
    if offered.no_place > 0 {
        let placed = offered.taken.saturating_add(offered.held);
        let why = SyncError::Refused(placed.saturating_add(2), TakeError::Full);
        return Err(CommandError::Sync(why));
    }
    Ok(held)
}

// Whether the state is one of another configuration.
fn differs(why: &CommandError) -> bool {
    matches!(
        why,
        CommandError::Sync(SyncError::ConfigDiffers)
            | CommandError::Journal(SyncError::ConfigDiffers)
    )
}

fn one_side<C: Closure>(alloc: Global, next: C) -> BegunSides<C> {
    BegunSides {
        sides: Sides {
            next,
            previous: None,
        },
        fresh: Vec::new(alloc),
        carried: None,
    }
}

// The state is one of the next configuration.
fn both_sides<C: Closure>(alloc: Global, mut sides: Sides<C>) -> Result<BegunSides<C>, AllocError> {
    let mut unkept = Vec::new(alloc);
    let mut fresh = Vec::new(alloc);
    sides.share(alloc, Side::Next, &mut unkept)?;
    sides.share(alloc, Side::Previous, &mut fresh)?;
    Ok(BegunSides {
        sides,
        fresh,
        carried: None,
    })
}

// It is one of the previous configuration. The next side is saved whole, so no line of it is kept.
fn carried_sides<C: Closure>(
    alloc: Global,
    mut sides: Sides<C>,
) -> Result<BegunSides<C>, AllocError> {
    let mut unkept = Vec::new(alloc);
    let offered = sides.share(alloc, Side::Previous, &mut unkept)?;
    sides.share(alloc, Side::Next, &mut unkept)?;
    Ok(BegunSides {
        sides,
        fresh: Vec::new(alloc),
        carried: Some(offered),
    })
}
