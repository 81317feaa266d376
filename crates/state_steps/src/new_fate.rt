//! What a start makes of a file that was to become the previous state.
ghost use Rattle.std.specs.Prelude.{◌≡◌, IfSome, is_some};
ghost use Rattle.std.specs.Option.{option_copied};
ghost use Rattle.state_steps.specs.Carries.{fate_of_new, is_whole_head};

/// What becomes of a new file that a carry-over left, and whose name nobody reads.
#[derive(Clone, Copy, Debug, PartialEq, Eq)]
pub enum NewFate {
    /// It gets the name of the previous state: the state was replaced after it was written.
    GetsName,
    /// It is removed: the state still has what it was to keep.
    IsRemoved,
}

/// What these first bytes of a snapshot, or zeros for what it lacks, say of its configuration; none
/// if they say nothing, since they do not begin as a snapshot does, or it lacks some.
pub fn head_of_bytes<'a>(beginning: &[u8], bytes: &'a [u8]) -> Option<&'a [u8]>
    ensures head { is_some result ≡ is_whole_head beginning.now bytes.now }
    ensures text { IfSome result (λ head. head.now ≡ bytes.now) }
{
    if bytes.starts_with(beginning) && !bytes.contains(&0) {
        Some(bytes)
    } else {
        None
    }
}

/// What becomes of a new file, by what its head and the state's say of their configurations, and
/// whether it is a whole snapshot of a configuration that is given.
pub fn fate_of_new(state: Option<&[u8]>, new: Option<&[u8]>, is_whole: bool) -> NewFate
    ensures { result ≡ fate_of_new (option_copied state.entry)
        (option_copied new.entry) is_whole }
{
    match (state, new) {
        (Some(state), Some(new)) if state != new && is_whole => NewFate::GetsName,
        _ => NewFate::IsRemoved,
    }
}
