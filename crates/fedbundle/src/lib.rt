//! The command's functions, each over sources and sinks: the program hands them its standard
//! streams. `shown` calls those that show what is held, by what the arguments say. Why a command
//! ends is in `command_exits`.
#![tactic(auto)]

mod bundle;
mod canon;
mod chain_text;
mod counts;
mod distrust;
mod explain;
mod judge;
pub mod laws;
mod line_fault;
mod merge;
mod migrate;
mod observe;
mod option_values;
mod polls;
mod pull;
mod report;
mod said_keys;
mod said_values;
mod serve;
mod shown;
mod shown_config;
mod shown_difference;
mod shown_held;
mod shown_moves;
mod shown_status;
mod two_parts;

pub use bundle::{run_bundle, run_bundle_pem};
pub use canon::{run_canon, run_canon_bytes};
pub use command_exits::{
    CommandError, Exit, FileFault, RunError, Step, SystemFault, exit_status, read_config, status,
    write_exit, write_fault,
};
pub use command_line::{
    BundleFormat, Call, CommandName, ExplanationForm, Manner, MostHeld, OptionError, OptionName,
    OutputForm, WordsError, command_of, given, is_flag_given, limits_given, manner_of,
    read_bundle_format, read_explanation_form, read_key, read_output_form, read_request,
    read_sessions, read_words, wanted,
};
pub use counts::write_counted;
pub use distrust::{distrusted_text, run_distrust, show_distrust};
pub use distrust_view::GivenKeys;
pub use explain::run_explain;
pub use merge::{run_merge, take_other};
pub use migrate::run_migrate;
pub use observe::{Observed, prepare_observe, run_observe};
pub use option_values::{read_moment, read_status_format};
pub use polls::run_polls_in;
pub use pull::run_pull;
pub use report::{run_report, run_report_into, run_report_with};
pub use said_keys::{Keeper, read_given_keys};
pub use said_values::{read_chosen, read_domain, read_verdict};
pub use serve::{run_serve, write_served};
pub use shown::{Shown, run_shown};
pub use shown_config::run_config;
pub use shown_difference::run_diff;
