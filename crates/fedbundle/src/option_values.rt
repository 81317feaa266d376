//! The texts of options that are values of the crates below, read: a time, and how `status` is
//! written.
ghost use Rattle.std.specs.Prelude.{◌≡◌, IfOk, IfErr, option_map};
ghost use Rattle.fedbundle.specs.OptionValues.{SaysBadMoment, SaysMoment};
ghost use Rattle.fedbundle.specs.OptionValues.{SaysNoStatusFormat, SaysStatusFormat};
ghost use Rattle.command_exits.specs.declared.exits.Exit.TheVariants.{BadMoment, Usage};

use command_exits::Exit;
use jiff::Timestamp;
use poll_log::read_seconds;
use status_view::StatusFormat;

/// The time of this many Unix seconds.
///
/// # Errors
/// The text is not a number, or no time has it.
pub fn read_moment(text: &str) -> Result<Timestamp, Exit>
    ensures ok { IfOk result (λ moment. SaysMoment text.now moment.nanosecond) }
    ensures refused { IfErr result (λ exit. (exit ≡ BadMoment) × SaysBadMoment text.now) }
{
    let Some(seconds) = read_seconds(text.as_bytes()) else {
        return Err(Exit::BadMoment);
    };
    match Timestamp::from_second(seconds) {
        Ok(moment) => Ok(moment),
        Err(_) => Err(Exit::BadMoment),
    }
}

/// The format of `status`: `text`, which is also meant if nothing is said, `json` or `prometheus`.
///
/// # Errors
/// The text is something else.
pub fn read_status_format(text: Option<&str>) -> Result<StatusFormat, Exit>
    ensures ok { IfOk result (SaysStatusFormat (option_map (λ t. t.now) text.entry)) }
    ensures refused { IfErr result (λ exit. (exit ≡ Usage)
        × SaysNoStatusFormat (option_map (λ t. t.now) text.entry)) }
{
    match text {
        None => Ok(StatusFormat::Text),
        Some(text) if text == "text" => Ok(StatusFormat::Text),
        Some(text) if text == "json" => Ok(StatusFormat::Json),
        Some(text) if text == "prometheus" => Ok(StatusFormat::Prometheus),
        Some(_) => Err(Exit::Usage),
    }
}
