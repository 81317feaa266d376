//! Sessions in which replicas exchange haves and answers, whose texts are in `replica_texts`.
//!
//! A session is a machine without a socket, a file or a clock: bytes go in, as the pieces in which
//! they come, and bytes go out. `line_part` makes whole lines out of pieces. `piece_serving`
//! answers the haves that come so, with the records that `answer_records` says, and `text_sink`
//! keeps an answer. `piece_pulling` asks about the buckets of a `bucket_plan`, and takes the
//! answers that come so: `answer_lines` takes their lines, and `news` what they say: `new_entry`
//! immediately, or records of distrust together.
//!
//! `serving` and `pulling` are whole sessions over a source and a sink. `serving` gives what it
//! reads to `piece_serving`, and `pulling` to `piece_pulling`.
#![tactic(auto)]

mod answer_lines;
mod answer_records;
mod bucket_plan;
pub mod laws;
mod line_part;
mod new_entry;
mod news;
mod piece_pulling;
mod piece_serving;
mod pulling;
mod refused_line;
mod serving;
mod text_sink;

pub use answer_records::AnswerRecords;
pub use line_part::{LinePart, PieceEnd};
pub use piece_pulling::Pulling;
pub use piece_serving::Serving;
pub use pulling::pull;
pub use replica_core::{
    Answer, Event, Give, Have, Lacking, PullFault, SyncError, absorb, answer, have, run_world,
};
pub use replica_texts::{
    Wanted, next_entry, read_first_line, read_give, read_give_line, read_have, read_have_line,
    read_snapshot, take_sole_line, write_answer, write_first_line, write_have, write_snapshot,
};
pub use serving::serve_one;
