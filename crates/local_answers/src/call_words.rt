//! The arguments of a request, out of those of a command line.
ghost use Rattle.std.specs.Prelude.{◌≡◌, ◌++◌, IfOk, OnOk, map, option_map, option_to_list};
ghost use Rattle.std.specs.Prelude.{string_bytes};
ghost use Rattle.local_answers.specs.RequestWords.{asked_words, flag_word, is_asked, word_with};
ghost use Rattle.local_answers.specs.RequestWords.{words_with};

use command_line::{Call, OptionName, TakenOption};
use std::alloc::{AllocError, Global};

/// The arguments by which a request asks a running replica for what the command line asks for: the
/// subcommand, and each option that is given, without `--at` and those that the replica has itself,
/// as `--config`, `--state` and `--most-receipts`. An option and its text are one argument, so a
/// text may begin with a hyphen.
///
/// # Errors
/// Memory ran out.
pub fn request_words(alloc: Global, call: &Call<'_>) -> Result<Vec<String>, AllocError>
    ensures { IfOk result (λ words. map string_bytes words.items ≡ asked_words call.now.name
        (map (option_map (λ t. t.now)) call.now.texts.items)) }
{
    let mut words = Vec::new(alloc);
    words.push(String::from_str(alloc, call.name.text())?)?;
    push_words(
        alloc,
        &mut words,
        call.name.options(),
        call.texts.as_slice(),
    )?;
    Ok(words)
}

fn push_words(
    alloc: Global,
    words: &mut Vec<String>,
    options: &[TakenOption],
    texts: &[Option<&str>],
) -> Result<(), AllocError>
    ensures { OnOk result (map string_bytes words.new.items ≡ map string_bytes words.old.items
        ++ words_with options.now (map (option_map (λ t. t.now)) texts.now)) }
{
    let mut rest = texts;
    'options: for &taken in options {
        let [text, more @ ..] = rest else {
            return Ok(());
        };
        push_word(words, option_word(alloc, taken, *text)?)?;
        rest = more;
    }
    Ok(())
}

fn push_word(words: &mut Vec<String>, word: Option<String>) -> Result<(), AllocError>
    ensures { OnOk result (map string_bytes words.new.items ≡ map string_bytes words.old.items
        ++ option_to_list (option_map string_bytes word)) }
{
    match word {
        Some(word) => {
            words.push(word)?;
            Ok(())
        }
        None => Ok(()),
    }
}

fn option_word(
    alloc: Global,
    taken: TakenOption,
    text: Option<&str>,
) -> Result<Option<String>, AllocError>
    ensures { IfOk result (λ word. option_map string_bytes word
        ≡ word_with taken (option_map (λ t. t.now) text.entry)) }
{
    let option = taken.name();
    match text {
        Some(text) if option.is_flag() => flag_word(alloc, option, text),
        Some(text) if is_asked(taken) => {
            let name = option.text();
            Ok(Some(format!(in alloc; "--{name}={text}")?))
        }
        _ => Ok(None),
    }
}

// A flag that is given has the text `true`.
fn flag_word(alloc: Global, option: OptionName, text: &str) -> Result<Option<String>, AllocError>
    ensures { IfOk result (λ word. option_map string_bytes word ≡ flag_word option text.now) }
{
    if text != "true" {
        return Ok(None);
    }
    let name = option.text();
    Ok(Some(format!(in alloc; "--{name}")?))
}

// Whether a request may have the option.
fn is_asked(taken: TakenOption) -> bool
    ensures { result ≡ is_asked taken }
{
    match taken {
        TakenOption::Required(_) => true,
        TakenOption::Optional(_) => true,
        TakenOption::RequiredOverFiles(_) => false,
        TakenOption::OptionalOverFiles(_) => false,
        TakenOption::OptionalAtReplica(_) => true,
        TakenOption::Asking(_) => false,
    }
}
