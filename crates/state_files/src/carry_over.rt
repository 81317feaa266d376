//! A state that is carried over to another configuration.
use crate::std_calls::{CarryCalls, CarryWith};
use closure_core::Closure;
use command_exits::FileFault;
use progress_line::ProgressMode;
use side_by_side::Sides;
use state_calls::carry_state;
use std::alloc::Global;
use std::fs::{File, Files};
use std::io::Eprint;
use std::time::Clock;

/// Makes the state file one of the next configuration, and keeps what the previous one holds in the
/// file next to it, in the order of [`CarryingOver`](state_steps::CarryingOver). There is no
/// journal afterwards. The state is not replaced, and the file gets no name, unless that is as it
/// was written.
///
/// # Errors
/// - `Io`: the system refused a step,
/// - `NoMemory`: memory ran out.
pub(crate) fn carry_over<C: Closure, R: Files<File = File> + Clock + Eprint>(
    files: &R,
    alloc: Global,
    sides: &Sides<C>,
    path: &str,
    mode: ProgressMode,
) -> Result<(), FileFault> {
    let mut calls = CarryCalls::new();
    let with = CarryWith {
        files,
        alloc,
        sides,
        path,
        mode,
    };
    carry_state(&mut calls, &with)
}
