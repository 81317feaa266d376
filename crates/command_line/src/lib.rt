//! The arguments of the command line, without a file, a stream or a replica: the subcommands and
//! their options, what help says of them, the call that arguments make, what it is refused for, and
//! what the texts of options say.
#![tactic(auto)]

mod addresses;
mod checks;
mod command_name;
mod help_texts;
mod option_error;
mod option_rows;
mod option_texts;
mod sessions;
mod words;

pub use addresses::{health_given, listen_given, may_listen, read_address, read_known_address};
pub use command_name::{CommandName, OptionName, TakenOption};
pub use help_texts::VERSION;
pub use option_error::OptionError;
pub use option_texts::{
    BundleFormat, ExplanationForm, Manner, MostHeld, OutputForm, WarnTimes, every_given, given,
    is_flag_given, limits_given, manner_of, read_bundle_format, read_explanation_form, read_key,
    read_output_form, request_bytes_given, wanted, warn_times_given,
};
pub use sessions::read_sessions;
pub use words::{Call, WordsError, command_of, read_request, read_words};
