//! What a request asks for, once its arguments are read.
use command_line::Call;
use status_view::RunningStatus;

/// A call, whose texts are lent by its arguments; its input; and what the replica that is asked
/// says of itself.
#[derive(Clone, Copy, Debug)]
pub(crate) struct Asked<'call, 'words, 'a> {
    pub(crate) call: &'call Call<'words>,
    pub(crate) running: &'a RunningStatus<'a>,
    pub(crate) input: &'a [u8],
}
