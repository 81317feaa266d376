//! The texts of options, found and read.
ghost use Rattle.std.specs.Prelude.{◌≡◌, ◌↔◌, ◌==◌, ℕ, IfOk, IfErr, IsTrue, Ok, Some, None, map};
ghost use Rattle.std.specs.Prelude.{option_map, slice_index_or};
ghost use Rattle.hex.specs.Hex.{decode_sized, encode_lower};
ghost use Rattle.command_line.specs.OptionTexts.{IsKeyText, IsNoKeyText, ReadsNumber, SaysManner};
ghost use Rattle.command_line.specs.OptionTexts.{SaysCount, SaysMostHeld, SaysNoMostHeld};
ghost use Rattle.command_line.specs.OptionTexts.{SaysNoManner, SaysNumber};
ghost use Rattle.command_line.specs.OptionTexts.{SaysBundleFormat, SaysExplanationForm, SaysFlag};
ghost use Rattle.command_line.specs.OptionTexts.{SaysNoBundleFormat, option_said};
ghost use Rattle.command_line.specs.OptionTexts.{SaysExplanationIn, SaysNoExplanationIn};
ghost use Rattle.command_line.specs.OptionTexts.{SaysNoOutputForm, SaysOutputForm, said_with};
ghost use Rattle.command_line.specs.OptionTexts.{SaysEvery, SaysNoWarnTimes, SaysRequestBytes};
ghost use Rattle.command_line.specs.OptionTexts.{SaysWarnTimes};
ghost use Rattle.command_line.specs.Words.{is_text};
ghost use Rattle.command_line.specs.declared.command_name.OptionName.TheVariants.{Every};
ghost use Rattle.command_line.specs.declared.command_name.OptionName.TheVariants.{MostRequestBytes};
ghost use Rattle.command_line.specs.declared.option_error.OptionError.TheVariants.{BadKey};
ghost use Rattle.command_line.specs.declared.option_error.OptionError.TheVariants.{BadNumber};
ghost use Rattle.command_line.specs.declared.option_error.OptionError.TheVariants.{Usage};

use crate::command_name::{OptionName, TakenOption};
use crate::option_error::OptionError;
use crate::words::Call;
use jwk_set::KeyId;

/// How many seconds the lock of a state is waited for if nothing else is said, and at most.
const WAIT_SECONDS: u64 = 60;

const MAX_WAIT_SECONDS: u64 = 86_400;

/// How many bytes are held at most if nothing else is said. Documents of many short keys take six
/// times their bytes of memory, so a replica that holds them starts again within 2 GiB.
const MOST_BYTES: u64 = 268_435_456;

/// How many receipts and how many records of distrust may be held if nothing else is said, and at
/// most.
const USUAL_RECEIPTS: u64 = 65_536;

const MOST_RECEIPTS: u64 = 4_194_304;

const USUAL_RECORDS: u64 = 4_096;

const MOST_RECORDS: u64 = 65_536;

/// How many days before its end a certificate is warned of if nothing else is said, and at most.
const EXPIRES_WITHIN: u64 = 7;

const MAX_EXPIRES_WITHIN: u64 = 36_525;

/// How many seconds a peer may be quiet if nothing else is said, and at most.
const PEER_QUIET: u64 = 600;

const MAX_PEER_QUIET: u64 = 31_536_000;

/// How many seconds after a pull began the next one from that peer begins if nothing else is said,
/// and at most.
const EVERY_SECONDS: u64 = 60;

const MAX_EVERY_SECONDS: u64 = 86_400;

/// How many bytes requests and their replies may have together if nothing else is said.
const REQUEST_BYTES: u64 = 536_870_912;

/// How `bundle` writes a document.
#[derive(Clone, Copy, Debug, PartialEq, Eq)]
pub enum BundleFormat {
    /// Its canonical text.
    Json,
    /// The certificates of its X.509 authorities, as PEM.
    Pem,
}

/// In which of two forms a command writes what it shows.
#[derive(Clone, Copy, Debug, PartialEq, Eq)]
pub enum OutputForm {
    /// Lines for people.
    Text,
    /// A compact JSON object and a line feed.
    Json,
}

/// How an explanation is written.
#[derive(Clone, Copy, Debug, PartialEq, Eq)]
pub enum ExplanationForm {
    /// The lines of the receipts, from the configured document on; none for a configured one.
    Receipts,
    /// A line for each step, from the document back to the configured one: `<document id> sequence
    /// <n> <- key <key id> of <document id>`, and at the end `<document id> configured`.
    Steps,
    /// A compact JSON object.
    Json,
}

/// What the options say that may be left out.
#[derive(Clone, Copy, Debug)]
pub struct Manner {
    /// How many seconds the lock of the state is waited for.
    pub wait_seconds: u64,
    /// How many bytes the state file and what is added to it may have together.
    pub most_bytes: u64,
    /// Whether more is said on standard error.
    pub is_verbose: bool,
}

/// How much may be held.
#[derive(Clone, Copy, Debug)]
pub struct MostHeld {
    /// The most receipts.
    pub receipts: u64,
    /// The most records of distrust.
    pub records: u64,
}

/// When something is warned of that is not wrong yet.
#[derive(Clone, Copy, Debug, PartialEq, Eq)]
pub struct WarnTimes {
    /// How many days before its end a certificate is warned of.
    pub expires_within: u64,
    /// How many seconds a peer may be quiet.
    pub peer_quiet: u64,
}

/// The text that the arguments give the option of this name, if they give it one.
pub fn given<'a>(call: &Call<'a>, wanted: OptionName) -> Option<&'a str>
    ensures { option_map (λ t. t.now) result ≡ option_said call.now.name
        (map (option_map (λ t. t.now)) call.now.texts.items) wanted }
{
    said_with(call.name.options(), call.texts.as_slice(), wanted)
}

// The text next to the option of this name.
fn said_with<'a>(
    options: &[TakenOption],
    texts: &[Option<&'a str>],
    wanted: OptionName,
) -> Option<&'a str>
    ensures { option_map (λ t. t.now) result
        ≡ said_with options.now (map (option_map (λ t. t.now)) texts.now) wanted }
{
    let mut rest = texts;
    'options: for &taken in options {
        let [text, more @ ..] = rest else {
            return None;
        };
        if taken.name().text() == wanted.text() {
            return *text;
        }
        rest = more;
    }
    None
}

/// The text of an option that the command wants.
///
/// # Errors
/// The arguments leave it out.
pub fn wanted<'a>(call: &Call<'a>, wanted: OptionName) -> Result<&'a str, OptionError>
    ensures ok { IfOk result (λ text. option_said call.now.name
        (map (option_map (λ t. t.now)) call.now.texts.items) wanted ≡ Some text.now) }
    ensures usage { IfErr result (λ error. (error ≡ Usage) × (option_said call.now.name
        (map (option_map (λ t. t.now)) call.now.texts.items) wanted ≡ None)) }
{
    match given(call, wanted) {
        Some(text) => Ok(text),
        None => Err(OptionError::Usage),
    }
}

/// What the arguments say of waiting, of the most bytes and of saying more.
///
/// # Errors
/// A text is not a number, or a number out of its range.
pub fn manner_of(call: &Call<'_>) -> Result<Manner, OptionError>
    ensures ok { IfOk result (SaysManner call.now.name
        (map (option_map (λ t. t.now)) call.now.texts.items)) }
    ensures refused { IfErr result (λ error. (option : OptionName) × (error ≡ BadNumber option)) }
    ensures none { IfErr result (SaysNoManner call.now.name
        (map (option_map (λ t. t.now)) call.now.texts.items)) }
{
    let wait = given(call, OptionName::Wait);
    let most = given(call, OptionName::MostBytes);
    let Some(wait_seconds) = number_up_to(wait, WAIT_SECONDS, MAX_WAIT_SECONDS) else {
        return Err(OptionError::BadNumber(OptionName::Wait));
    };
    let Some(most_bytes) = number_up_to(most, MOST_BYTES, u64::MAX) else {
        return Err(OptionError::BadNumber(OptionName::MostBytes));
    };
    let is_verbose = is_flag_given(given(call, OptionName::Verbose));
    Ok(Manner {
        wait_seconds,
        most_bytes,
        is_verbose,
    })
}

/// What the arguments say of how much may be held: 65,536 receipts, or the number of
/// `--most-receipts`, from 1 to 4,194,304; and 4,096 records of distrust, or the number of
/// `--most-records`, from 1 to 65,536.
///
/// # Errors
/// A text is not a number, or a number out of its range.
pub fn limits_given(call: &Call<'_>) -> Result<MostHeld, OptionError>
    ensures ok { IfOk result (SaysMostHeld call.now.name
        (map (option_map (λ t. t.now)) call.now.texts.items)) }
    ensures refused { IfErr result (λ error. (option : OptionName) × (error ≡ BadNumber option)) }
    ensures none { IfErr result (SaysNoMostHeld call.now.name
        (map (option_map (λ t. t.now)) call.now.texts.items)) }
{
    let receipts = given(call, OptionName::MostReceipts);
    let records = given(call, OptionName::MostRecords);
    let Some(receipts) = count_up_to(receipts, USUAL_RECEIPTS, MOST_RECEIPTS) else {
        return Err(OptionError::BadNumber(OptionName::MostReceipts));
    };
    let Some(records) = count_up_to(records, USUAL_RECORDS, MOST_RECORDS) else {
        return Err(OptionError::BadNumber(OptionName::MostRecords));
    };
    Ok(MostHeld { receipts, records })
}

/// What the arguments say of when something is warned of: 7 days before the end of a certificate,
/// or the number of `--expires-within`, of at most 36,525; and after 600 quiet seconds of a peer,
/// or the number of `--peer-quiet`, of at most 31,536,000.
///
/// # Errors
/// A text is not a number, or a number out of its range.
pub fn warn_times_given(call: &Call<'_>) -> Result<WarnTimes, OptionError>
    ensures ok { IfOk result (SaysWarnTimes call.now.name
        (map (option_map (λ t. t.now)) call.now.texts.items)) }
    ensures refused { IfErr result (λ error. (option : OptionName) × (error ≡ BadNumber option)) }
    ensures none { IfErr result (SaysNoWarnTimes call.now.name
        (map (option_map (λ t. t.now)) call.now.texts.items)) }
{
    let days = given(call, OptionName::ExpiresWithin);
    let quiet = given(call, OptionName::PeerQuiet);
    let Some(expires_within) = number_up_to(days, EXPIRES_WITHIN, MAX_EXPIRES_WITHIN) else {
        return Err(OptionError::BadNumber(OptionName::ExpiresWithin));
    };
    let Some(peer_quiet) = number_up_to(quiet, PEER_QUIET, MAX_PEER_QUIET) else {
        return Err(OptionError::BadNumber(OptionName::PeerQuiet));
    };
    Ok(WarnTimes {
        expires_within,
        peer_quiet,
    })
}

/// How many seconds after a pull began the next one from that peer begins: 60, or the number of
/// `--every`, from 1 to 86,400.
///
/// # Errors
/// The text is not a number, or a number out of its range.
pub fn every_given(call: &Call<'_>) -> Result<u64, OptionError>
    ensures ok { IfOk result (λ seconds. SaysEvery (option_said call.now.name
        (map (option_map (λ t. t.now)) call.now.texts.items) Every) (Some seconds)) }
    ensures refused { IfErr result (λ error. (error ≡ BadNumber Every)
        × SaysEvery (option_said call.now.name
        (map (option_map (λ t. t.now)) call.now.texts.items) Every) None) }
{
    let every = given(call, OptionName::Every);
    match count_up_to(every, EVERY_SECONDS, MAX_EVERY_SECONDS) {
        Some(seconds) => Ok(seconds),
        None => Err(OptionError::BadNumber(OptionName::Every)),
    }
}

/// How many bytes requests and their replies may have together: 536,870,912, or the number of
/// `--most-request-bytes`.
///
/// # Errors
/// The text is not a number of 64 bits.
pub fn request_bytes_given(call: &Call<'_>) -> Result<u64, OptionError>
    ensures ok { IfOk result (λ bytes. SaysRequestBytes (option_said call.now.name
        (map (option_map (λ t. t.now)) call.now.texts.items) MostRequestBytes) (Some bytes)) }
    ensures refused { IfErr result (λ error. (error ≡ BadNumber MostRequestBytes)
        × SaysRequestBytes (option_said call.now.name
        (map (option_map (λ t. t.now)) call.now.texts.items) MostRequestBytes) None) }
{
    number_up_to(
        given(call, OptionName::MostRequestBytes),
        REQUEST_BYTES,
        u64::MAX,
    )
    .ok_or(OptionError::BadNumber(OptionName::MostRequestBytes))
}

// The number of the text, or the other one if there is no text, if it is at least 1.
fn count_up_to(text: Option<&str>, otherwise: u64, most: u64) -> Option<u64>
    ensures { SaysCount otherwise most (option_map (λ t. t.now) text.entry) result }
{
    match number_up_to(text, otherwise, most) {
        Some(count) if 1 <= count => Some(count),
        Some(_) => None,
        None => None,
    }
}

// The number of the text, or the other one if there is no text.
fn number_up_to(text: Option<&str>, otherwise: u64, most: u64) -> Option<u64>
    ensures { SaysNumber otherwise most (option_map (λ t. t.now) text.entry) result }
{
    match text {
        Some(text) => number_of(text, most),
        None => Some(otherwise),
    }
}

// The number of the text, if it is at most the other one.
fn number_of(text: &str, most: u64) -> Option<u64>
    ensures { ReadsNumber most text.now result }
{
    // A text with a plus sign is parsed too.
    if has_plus(text.as_bytes()) {
        return None;
    }
    match text.parse::<u64>() {
        Ok(number) if number <= most => Some(number),
        Ok(_) => None,
        Err(_) => None,
    }
}

fn has_plus(text: &[u8]) -> bool
    ensures { result ≡ (slice_index_or text.now 0 0 == 43) }
{
    match text {
        [first, ..] => *first == b'+',
        [] => false,
    }
}

/// The key id of 64 lower-case hexadecimal digits.
///
/// # Errors
/// The text is something else.
pub fn read_key(text: &str) -> Result<KeyId, OptionError>
    ensures ok { IfOk result (λ key. decode_sized text.now 32 ≡ Ok key.0) }
    ensures lower { IfOk result (IsKeyText text.now) }
    ensures refused { IfErr result (λ error. error ≡ BadKey) }
    ensures none { IfErr result (λ error. IsNoKeyText text.now) }
{
    let mut id = [0; 32];
    match hex::decode_to_slice(text, &mut id) {
        // Upper-case digits are decoded too.
        Ok(()) if is_key_text(&id, text) => Ok(KeyId(id)),
        Ok(()) => Err(OptionError::BadKey),
        Err(_) => Err(OptionError::BadKey),
    }
}

fn is_key_text(id: &[u8; 32], text: &str) -> bool
    ensures { IsTrue result ↔ (encode_lower id.now ≡ text.now) }
{
    let mut digits = [0; 64];
    hex::encode_to_slice(*id, &mut digits).unwrap();
    digits.as_slice() == text.as_bytes()
}

/// The format of `bundle`: `json`, which is also meant if nothing is said, or `pem`.
///
/// # Errors
/// The text is something else.
pub fn read_bundle_format(text: Option<&str>) -> Result<BundleFormat, OptionError>
    ensures ok { IfOk result (SaysBundleFormat (option_map (λ t. t.now) text.entry)) }
    ensures refused { IfErr result (λ error. (error ≡ Usage)
        × SaysNoBundleFormat (option_map (λ t. t.now) text.entry)) }
{
    match text {
        None => Ok(BundleFormat::Json),
        Some(text) if text == "json" => Ok(BundleFormat::Json),
        Some(text) if text == "pem" => Ok(BundleFormat::Pem),
        Some(_) => Err(OptionError::Usage),
    }
}

/// Whether there is a text, and it is this one.
pub(crate) fn is_text(text: Option<&str>, wanted: &str) -> bool
    ensures { result ≡ is_text (option_map (λ t. t.now) text.entry) wanted.now }
{
    match text {
        Some(text) => text == wanted,
        None => false,
    }
}

/// Whether the arguments have the flag, by its text.
pub fn is_flag_given(text: Option<&str>) -> bool
    ensures { SaysFlag (option_map (λ t. t.now) text.entry) result }
{
    match text {
        Some(text) => text == "true",
        None => false,
    }
}

// How `explain` writes a chain as lines, by the text of its flag for short ones.
fn explanation_form(short: Option<&str>) -> ExplanationForm
    ensures { SaysExplanationForm (option_map (λ t. t.now) short.entry) result }
{
    if is_flag_given(short) {
        ExplanationForm::Steps
    } else {
        ExplanationForm::Receipts
    }
}

/// The form of `canon`, `config`, `report`, `list` and `polls`: `text`, which is also meant if
/// nothing is said, or `json`.
///
/// # Errors
/// The text is something else.
pub fn read_output_form(text: Option<&str>) -> Result<OutputForm, OptionError>
    ensures ok { IfOk result (SaysOutputForm (option_map (λ t. t.now) text.entry)) }
    ensures refused { IfErr result (λ error. (error ≡ Usage)
        × SaysNoOutputForm (option_map (λ t. t.now) text.entry)) }
{
    match text {
        None => Ok(OutputForm::Text),
        Some(text) if text == "text" => Ok(OutputForm::Text),
        Some(text) if text == "json" => Ok(OutputForm::Json),
        Some(_) => Err(OptionError::Usage),
    }
}

/// How `explain` writes a chain, by the texts of its flag for short lines and of its form.
///
/// # Errors
/// The text of the form is neither `text` nor `json`, or it is `json` and the flag is given.
pub fn read_explanation_form(
    short: Option<&str>,
    form: Option<&str>,
) -> Result<ExplanationForm, OptionError>
    ensures ok { IfOk result (SaysExplanationIn (option_map (λ t. t.now) short.entry)
        (option_map (λ t. t.now) form.entry)) }
    ensures refused { IfErr result (λ error. (error ≡ Usage)
        × SaysNoExplanationIn (option_map (λ t. t.now) short.entry)
        (option_map (λ t. t.now) form.entry)) }
{
    match read_output_form(form)? {
        OutputForm::Text => Ok(explanation_form(short)),
        OutputForm::Json if is_flag_given(short) => Err(OptionError::Usage),
        OutputForm::Json => Ok(ExplanationForm::Json),
    }
}
