//! Reads the arguments of the command line. `specs/Words` has the command as `clap` knows it.
ghost use Rattle.std.specs.Prelude.{◌≡◌, ◌∷◌, ℕ, List, false, fold, IfOk, IfSome, map, option_map};
ghost use Rattle.std.specs.List.{list_all};
ghost use Rattle.clap.specs.Words.{Text, app_of, found_of, kind_of, rule_of, rows_of};
ghost use Rattle.clap.specs.declared.error.kind.ErrorKind.TheVariants.{InvalidSubcommand};
ghost use Rattle.clap.specs.declared.error.kind.ErrorKind.TheVariants.{OutOfMemory};
ghost use Rattle.command_line.specs.Checks.{ReadsWords};
ghost use Rattle.command_line.specs.Inside.WordsErrors.{KeepsKind, ParsesWords, ReadsAsAll};
ghost use Rattle.command_line.specs.Words.{asks_running, given_taken, is_given, is_given_as};
ghost use Rattle.command_line.specs.Words.{is_settled_in, leaf, name_text, named, rule_of_option};
ghost use Rattle.command_line.specs.Words.{bare_app, settled_at, the_command, with_name};
ghost use Rattle.command_line.specs.declared.words.WordsError.TheVariants.{NoMemory};
ghost use Rattle.command_line.specs.declared.words.WordsPlace.TheVariants.{CommandLine, Request};

use crate::checks::flaw_of;
use crate::command_name::{COMMANDS, CommandName, OptionName, TakenOption};
use crate::help_texts;
use crate::option_error::OptionError;
use crate::option_texts::is_text;
use clap::error::ErrorKind;
use clap::{Arg, ArgAction, ArgMatches, Command};
use std::alloc::{AllocError, AllocFailed, Global};

/// What the arguments ask for.
#[derive(Debug, Drop)]
pub struct Call<'a> {
    /// The subcommand.
    pub name: CommandName,
    /// The texts of its options, in the order of [`CommandName::options`]: none for an option that
    /// the arguments leave out.
    pub texts: Vec<Option<&'a str>>,
}

/// Why arguments do not make a call.
#[derive(Debug, Drop)]
pub enum WordsError<'a> {
    /// The command does not have them, or they ask for its help or version.
    Words(clap::Error),
    /// The subcommand, or one of its options, is missing.
    Usage,
    /// They make this call, whose options have this flaw.
    Flawed(Call<'a>, OptionError),
    /// Memory ran out.
    NoMemory,
}

/// The place of the arguments.
#[derive(Clone, Copy, Debug)]
pub(crate) enum WordsPlace {
    /// After the program's name.
    CommandLine,
    /// In a request to a running replica.
    Request,
}

/// Reads the arguments after the program's name, as `clap` reads them for the command with these
/// subcommands, each of whose options has one text: the subcommand, and the text of each of its
/// options. A flag's text is `true` if it is given, and else `false`. Arguments with `--at` leave
/// out `--config`, `--state`, `--most-receipts` and `--most-records`, all of which a running
/// replica has itself.
///
/// # Errors
/// - [`WordsError::Words`]: `clap` refuses the arguments, or they ask for help or for the version,
/// - [`WordsError::Usage`]: `clap` takes the arguments, and the subcommand or an option that it
///   wants is missing, `--at` is given with one that a running replica has itself or with `--new`
///   or `--known`, or `--unknown-key` is given without it,
/// - [`WordsError::Flawed`]: the path of a file or of a socket is empty, or `distrust` has neither
///   a key nor a public key or has both,
/// - [`WordsError::NoMemory`]: memory ran out.
pub fn read_words<'a>(alloc: Global, words: &'a [&'a str]) -> Result<Call<'a>, WordsError<'a>>
    ensures { ReadsWords CommandLine (map (λ w. w.now) words.now) result }
{
    read_call(alloc, words, WordsPlace::CommandLine)
}

/// Reads the arguments of a request to a running replica: those of the command line without `--at`,
/// and without `--config`, `--state`, `--most-receipts` and `--most-records`, all of which the
/// replica has itself.
///
/// # Errors
/// Those of [`read_words`]; [`WordsError::Usage`] if one of these five is given, or `--new` or
/// `--known`, which are about files.
pub fn read_request<'a>(alloc: Global, words: &'a [&'a str]) -> Result<Call<'a>, WordsError<'a>>
    ensures { ReadsWords Request (map (λ w. w.now) words.now) result }
{
    read_call(alloc, words, WordsPlace::Request)
}

fn read_call<'a>(
    alloc: Global,
    words: &'a [&'a str],
    place: WordsPlace,
) -> Result<Call<'a>, WordsError<'a>>
    ensures { ReadsWords place (map (λ w. w.now) words.now) result }
{
    match parse_words(alloc, words, place) {
        Ok(call) => match flaw_of(&call) {
            None => Ok(call),
            Some(flaw) => Err(WordsError::Flawed(call, flaw)),
        },
        Err(WordsError::Words(error)) => Err(with_all_names(alloc, error)),
        Err(error) => Err(error),
    }
}

// The call, whatever its options say.
fn parse_words<'a>(
    alloc: Global,
    words: &'a [&'a str],
    place: WordsPlace,
) -> Result<Call<'a>, WordsError<'a>>
    ensures { ParsesWords place (map (λ w. w.now) words.now) result }
{
    let Ok(command) = command_for(alloc, words) else {
        return Err(WordsError::NoMemory);
    };
    let matches = match command.try_get_matches_from(words) {
        Ok(matches) => matches,
        Err(error) => return Err(refusal_of(error)),
    };
    let Some((word, options)) = matches.subcommand() else {
        return Err(WordsError::Usage);
    };
    let Some(name) = command_of(word) else {
        return Err(WordsError::Usage);
    };
    let wanted = name.options();
    if !are_settled(options, wanted, place) {
        return Err(WordsError::Usage);
    }
    match texts_of(alloc, options, wanted) {
        Ok(texts) => Ok(Call { name, texts }),
        Err(_) => Err(WordsError::NoMemory),
    }
}

fn refusal_of<'a>(error: clap::Error) -> WordsError<'a>
    ensures kind { KeepsKind error result }
    ensures memory { kind_of error ≡ OutOfMemory → result ≡ NoMemory }
{
    match error.kind() {
        ErrorKind::OutOfMemory => WordsError::NoMemory,
        _ => WordsError::Words(error),
    }
}

// If an argument is not a subcommand, clap suggests the closest one. That may be `distrust`, which
// cannot be taken back. So all are named instead.
fn with_all_names<'a>(alloc: Global, error: clap::Error) -> WordsError<'a>
    ensures { KeepsKind error result }
{
    match error.kind() {
        ErrorKind::InvalidSubcommand => match name_all(alloc, &error) {
            Ok(named) => WordsError::Words(named),
            Err(_) => WordsError::NoMemory,
        },
        _ => WordsError::Words(error),
    }
}

fn name_all(alloc: Global, error: &clap::Error) -> Result<clap::Error, AllocError>
    ensures { IfOk result (λ named. kind_of named ≡ InvalidSubcommand) }
{
    let shown = format!(in alloc; "{error}")?;
    let first = shown.lines().next().unwrap_or("");
    let mut message = String::from_str(alloc, first.strip_prefix("error: ").unwrap_or(first))?;
    message.push_str("\n\nThe subcommands are:")?;
    'names: for name in COMMANDS.as_slice() {
        message.push_str(" ")?;
        message.push_str(name.text())?;
    }
    whole_command(alloc)?.error(ErrorKind::InvalidSubcommand, message.as_str())
}

// The whole command, or only the subcommand with whose name the arguments begin: the others are not
// looked at then, and to make them would take most of the time.
fn command_for<'a>(alloc: Global, words: &[&str]) -> Result<Command<'a>, AllocError>
    ensures { IfOk result (λ c. ReadsAsAll (map (λ w. w.now) words.now) (app_of c)) }
{
    match first_name(words) {
        Some(name) => command_with(alloc, &[name]),
        None => whole_command(alloc),
    }
}

fn whole_command<'a>(alloc: Global) -> Result<Command<'a>, AllocError>
    ensures { IfOk result (λ c. app_of c ≡ the_command) }
{
    command_with(alloc, COMMANDS.as_slice())
}

fn first_name(words: &[&str]) -> Option<CommandName>
    ensures { IfSome result (λ name. (rest : List Text) × (map (λ w. w.now) words.now
        ≡ name_text name ∷ rest)) }
{
    match words {
        [first, ..] => command_of(first),
        [] => None,
    }
}

fn command_with<'a>(alloc: Global, names: &[CommandName]) -> Result<Command<'a>, AllocError>
    ensures { IfOk result (λ c. app_of c ≡ fold with_name bare_app names.now) }
{
    let mut command = bare_command(alloc);
    'names: for &name in names {
        command = command.subcommand(subcommand(alloc, name)?)?;
    }
    Ok(command)
}

fn bare_command<'a>(alloc: Global) -> Command<'a>
    ensures { app_of result ≡ bare_app }
{
    Command::new(alloc, "fedbundle")
        .version(help_texts::VERSION)
        .about("Holds the federated trust bundles of one replica")
        .override_usage(help_texts::USAGE)
        .after_help(help_texts::NOTES)
        .no_binary_name(true)
}

fn subcommand<'a>(alloc: Global, name: CommandName) -> Result<Command<'a>, AllocError>
    ensures app { IfOk result (λ c. app_of c ≡ leaf name) }
{
    let mut command = with_help(Command::new(alloc, name.text()), name);
    'options: for &taken in name.options() {
        command = command.arg(argument(alloc, name, taken.name()))?;
    }
    Ok(command)
}

// Help says what the subcommand needs, which clap does not know, since it takes no option for a
// required one.
fn with_help<'a>(bare: Command<'a>, name: CommandName) -> Command<'a>
    ensures { app_of result ≡ app_of bare.entry }
{
    bare.about(name.about())
        .override_usage(name.usage())
        .after_help(name.notes())
}

fn argument<'a>(alloc: Global, name: CommandName, option: OptionName) -> Arg<'a>
    ensures rule { rule_of result ≡ rule_of_option option }
    ensures local { result.global ≡ false }
{
    let named = Arg::new(alloc, option.text())
        .long(option.text())
        .help(name.about_option(option));
    if option.is_flag() {
        named.action(ArgAction::SetTrue)
    } else {
        named.value_name(option.row().value).action(ArgAction::Set)
    }
}

/// The subcommand of this name, if there is one.
pub fn command_of(word: &str) -> Option<CommandName>
    ensures is { result ≡ named word.now }
    ensures text { IfSome result (λ name. word.now ≡ name_text name) }
{
    'names: for &name in COMMANDS.as_slice() {
        if name.text() == word {
            return Some(name);
        }
    }
    None
}

// Whether each option may be given or left out as it is.
fn are_settled(matches: &ArgMatches<'_>, options: &[TakenOption], place: WordsPlace) -> bool
    ensures { result ≡ list_all (is_settled_in place (rows_of (found_of matches.now))) options.now }
{
    let at = is_given(matches, OptionName::At);
    'options: for &taken in options {
        if !is_settled_at(place, at, is_given(matches, taken.name()), taken) {
            return false;
        }
    }
    true
}

fn is_given(matches: &ArgMatches<'_>, option: OptionName) -> bool
    ensures { result ≡ is_given (rows_of (found_of matches.now)) option }
{
    is_given_as(option, matches.get_str(option.text()))
}

// A flag that is left out has a text, too.
fn is_given_as(option: OptionName, text: Option<&str>) -> bool
    ensures { result ≡ is_given_as option (option_map (λ t. t.now) text.entry) }
{
    if option.is_flag() {
        is_text(text, "true")
    } else {
        text.is_some()
    }
}

// The same for one option; `at` says whether the arguments have `--at`.
fn is_settled_at(place: WordsPlace, at: bool, is_given: bool, taken: TakenOption) -> bool
    ensures { result ≡ settled_at place at is_given taken }
{
    match (taken, place) {
        (TakenOption::Required(_), _) => is_given,
        (TakenOption::Optional(_), _) => true,
        (TakenOption::RequiredOverFiles(_), _) if asks_running(place, at) => !is_given,
        (TakenOption::RequiredOverFiles(_), _) => is_given,
        (TakenOption::OptionalOverFiles(_), _) if asks_running(place, at) => !is_given,
        (TakenOption::OptionalOverFiles(_), _) => true,
        (TakenOption::OptionalAtReplica(_), _) if asks_running(place, at) => true,
        (TakenOption::OptionalAtReplica(_), _) => !is_given,
        (TakenOption::Asking(_), WordsPlace::CommandLine) => true,
        (TakenOption::Asking(_), WordsPlace::Request) => !is_given,
    }
}

// Whether a running replica is asked.
fn asks_running(place: WordsPlace, at: bool) -> bool
    ensures { result ≡ asks_running place at }
{
    match place {
        WordsPlace::CommandLine => at,
        WordsPlace::Request => true,
    }
}

fn texts_of<'a>(
    alloc: Global,
    matches: &ArgMatches<'a>,
    options: &[TakenOption],
) -> Result<Vec<Option<&'a str>>, AllocError>
    ensures { IfOk result (λ texts. map (given_taken (rows_of (found_of matches.now))) options.now
        ≡ map (option_map (λ t. t.now)) texts.items) }
{
    let mut texts = Vec::new(alloc);
    'options: for &taken in options {
        texts.push(text_of(matches, taken))?;
    }
    Ok(texts)
}

// The text that the arguments give the option, if they give it one.
fn text_of<'a>(matches: &ArgMatches<'a>, taken: TakenOption) -> Option<&'a str>
    ensures { option_map (λ t. t.now) result
        ≡ given_taken (rows_of (found_of matches.now)) taken }
{
    matches.get_str(taken.name().text())
}
