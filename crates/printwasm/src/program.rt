//! The program's behavior for its arguments, generic over the source of files, the texts of errors and the two
//! sinks.
ghost use Rattle.std.specs.Prelude.{◌≡◌, ◌↔◌, ◌⊎◌, Ok, map, option_copied, OnOk, IfOk, IfErr, IsErrOf, string_bytes};
ghost use Rattle.std.specs.Iterator.{IsFinite};
ghost use Rattle.std.specs.Process.{exit_status};
ghost use Rattle.wasmprinter_spec.specs.Binary.{IsComponent};
ghost use Rattle.printwasm.specs.Words.{AreWordsOf, CannotReadWords, is_option, is_known, named_file, has, choice_of};
ghost use Rattle.printwasm.specs.Outcome.{IsTextBy, GivesText, GivesNoText, WritesModuleText, FailsToWrite, ReportsError, HasOutcome, RunsWithWords, RefusesArguments, RefusesToRead};
ghost use Rattle.printwasm.specs.Outcome.{refused_status, writes, system};
ghost use Rattle.wasmprinter.specs.Outcome.{IsTextRefusal};

use crate::error_lines::{Render, WordsError};
use crate::sink_trait::Sink;
use std::alloc::Global;
use std::io;
use std::marker::Model;
use std::path::Path;
use std::process::ExitCode;
use wasmprinter::{Config, Error, Source};

const USAGE: &str =
    "usage: printwasm [--offsets] [--skeleton] [--name-unnamed] [--fold] [--color] FILE\n";

/// The exit status after the module was printed.
const PRINTED: u8 = 0;

/// The exit status if the file can't be read, the module can't be printed, the text can't be written, or the
/// arguments can't be read.
const REFUSED: u8 = 1;

/// The exit status if the arguments do not match the usage line.
const MISUSED: u8 = 2;

/// The prefix of the words that choose an option.
const OPTION_START: &str = "--";

/// Each line after the first begins with its place.
const OFFSETS: &str = "--offsets";

/// Bodies, items of element segments, and bytes of data segments and `(@custom ..)` are left out.
const SKELETON: &str = "--skeleton";

/// Identifiers are synthesized for items without a name.
const NAME_UNNAMED: &str = "--name-unnamed";

/// Each operator is printed in parentheses with its operands.
const FOLD: &str = "--fold";

/// The text has ANSI escape sequences.
const COLOR: &str = "--color";

/// All options of the program.
const OPTIONS: [&str; 5] = [OFFSETS, SKELETON, NAME_UNNAMED, FOLD, COLOR];

/// The choices that the arguments make.
#[derive(Drop)]
struct Choice {
    config: Config,
    is_colored: bool,
}

impl Model for Choice {
    ghost use Rattle.printwasm.specs.Words.{Choice as ChosenValue};

    ghost Value = { ChosenValue };

    ghost view = { λ c. record { options = c.config; colored = c.is_colored } };
}

/// Runs the program with all its arguments, of which the first is its own name, and returns the exit status.
///
/// The arguments without the first are the words. With these words the statuses and writes are those of [`run`]. If
/// `args` is an error, or an allocation fails while the words are read, the status is 1: one line that reports this
/// error is written to `err`, and nothing to `out`. A failed write to `err` does not change the status. If `args` is an
/// iterator, it must be finite, and a call of `next` on it must be allowed.
pub fn launch<S, R, I, O, E>(
    source: &S,
    renderer: &R,
    alloc: Global,
    args: io::Result<I>,
    out: &mut O,
    err: &mut E,
) -> ExitCode
where
    S: Source,
    R: Render<Error> + Render<WordsError>,
    I: Iterator<Item = String>,
    O: Sink,
    E: Sink,
    requires can { IfOk args I.can_next }
    requires finite { IfOk args (λ all. IsFinite (I.remaining all)) }
    ensures { RunsWithWords I.next_gives args
        (system (S.may_read source.now) (⟦<R as Render<Error>>⟧.renders renderer.now)
        (writes O.takes out.old out.new) (writes E.takes err.old err.new)) (exit_status result)
        ⊎ RefusesToRead args (⟦<R as Render<WordsError>>⟧.renders renderer.now)
        (writes O.takes out.old out.new) (writes E.takes err.old err.new) (exit_status result) }
{
    let words = words_of(alloc, args);
    start(source, renderer, alloc, words, out, err)
}

/// Runs the program with its words, or with the error for which they can't be read, and returns the exit status.
/// `words` does not contain the program's name, as in the result of [`words_of`].
///
/// With words, the statuses and writes are those of [`run`]. With an error, the status is 1: one line that reports
/// this error is written to `err`, and nothing to `out`. A failed write to `err` does not change the status.
pub fn start<S, R, O, E>(
    source: &S,
    renderer: &R,
    alloc: Global,
    words: io::Result<Vec<String>>,
    out: &mut O,
    err: &mut E,
) -> ExitCode
where
    S: Source,
    R: Render<Error> + Render<WordsError>,
    O: Sink,
    E: Sink,
    ensures runs { IfOk words (λ all. HasOutcome
        (system (S.may_read source.now) (⟦<R as Render<Error>>⟧.renders renderer.now)
        (writes O.takes out.old out.new) (writes E.takes err.old err.new))
        (map string_bytes all.items) (exit_status result)) }
    ensures refuses { IfErr words (λ error. RefusesArguments error (⟦<R as Render<WordsError>>⟧.renders renderer.now)
        (writes O.takes out.old out.new) (writes E.takes err.old err.new) (exit_status result)) }
{
    let status = match words {
        Ok(words) => run(source, renderer, alloc, &words, out, err),
        Err(cause) => refuse(renderer, err, WordsError { cause }),
    };
    ExitCode::from(status)
}

/// Returns the arguments in order, without the first, which is the program's name.
///
/// # Errors
///
/// - The error of `args`, if it is one.
/// - An error of the kind `OutOfMemory`, if an allocation fails.
///
/// No other error is returned. If `args` is an iterator, it must be finite, and a call of `next` on it must be allowed.
pub fn words_of<I: Iterator<Item = String>>(
    alloc: Global,
    args: io::Result<I>,
) -> io::Result<Vec<String>>
    requires can { IfOk args I.can_next }
    requires finite { IfOk args (λ all. IsFinite (I.remaining all)) }
    ensures words { IfOk result (λ words. AreWordsOf I.next_gives args (map string_bytes words.items)) }
    ensures unread { IfErr result (CannotReadWords args) }
{
    Ok(args?.skip(1).collect(alloc)?)
}

/// Prints the module in the file that the arguments name, and returns the exit status. `words` does not contain the
/// program's name. The statuses are:
///
/// - 0: the text of the file's module, with the options among the words, was written to `out` in one write, which
///   succeeded. `err` is unchanged.
/// - 1: the file can't be read or its module can't be printed, and `out` is unchanged; or the one write of the text
///   to `out` failed. A line that reports the error was written to `err`.
/// - 2: the words do not name exactly one file, or one of them is an unknown option. The usage line was written to
///   `err`. `out` is unchanged. For all other words the status is 0 or 1.
///
/// Each line is written to `err` in one write; if that write fails, the status stays the same. The reported error is
/// `Unreadable` after a failed read and `Printer` with its error after a failed write. Any other one is a refusal of
/// the bytes that reading the file returned.
pub fn run<S: Source, R: Render<Error>, O: Sink, E: Sink>(
    source: &S,
    renderer: &R,
    alloc: Global,
    words: &[String],
    out: &mut O,
    err: &mut E,
) -> u8
    ensures { HasOutcome
        (system (S.may_read source.now) (R.renders renderer.now) (writes O.takes out.old out.new) (writes E.takes err.old err.new))
        (map string_bytes words.now) result }
{
    let Some(file) = file_of(words) else {
        let _ = err.write_text(USAGE);
        return MISUSED;
    };
    match write_text_of(source, alloc, &choice_of(words), file, out) {
        Ok(()) => PRINTED,
        Err(error) => refuse(renderer, err, error),
    }
}

/// Returns whether a word chooses an option.
fn is_option(word: &str) -> bool
    ensures { result ≡ is_option word.now }
{
    word.starts_with(OPTION_START)
}

/// Returns whether a word is a file or an option of the program.
fn is_known(word: &str) -> bool
    ensures { result ≡ is_known word.now }
{
    !is_option(word) || OPTIONS.contains(&word)
}

/// Returns the file that the words name. Returns `None` if they name no file or several, or if one of them is an
/// unknown option.
fn file_of(words: &[String]) -> Option<&str>
    ensures { option_copied result ≡ named_file (map string_bytes words.now) }
{
    let mut file = None;
    for word in words {
        if !is_known(word) {
            return None;
        }
        if !is_option(word) && file.replace(word.as_str()).is_some() {
            return None;
        }
    }
    file
}

/// Returns whether the words contain this option.
fn has(words: &[String], option: &str) -> bool
    ensures { result ≡ has (map string_bytes words.now) option.now }
{
    words.iter().any(|word| word.as_str() == option)
}

/// Returns the choices that the words make.
fn choice_of(words: &[String]) -> Choice
    ensures { result ≡ choice_of (map string_bytes words.now) }
{
    let mut config = Config::new();
    config
        .print_offsets(has(words, OFFSETS))
        .print_skeleton(has(words, SKELETON))
        .name_unnamed(has(words, NAME_UNNAMED))
        .fold_instructions(has(words, FOLD));
    Choice {
        config,
        is_colored: has(words, COLOR),
    }
}

/// Writes the text of the module that a file contains, in one call. The text is complete before it is written.
fn write_text_of<S: Source, O: Sink>(
    source: &S,
    alloc: Global,
    choice: &Choice,
    file: &str,
    out: &mut O,
) -> Result<(), Error>
    ensures written { OnOk result (WritesModuleText choice.now (S.may_read source.now file.now) (writes O.takes out.old out.new) (Ok tt)) }
    ensures refused { IfErr result (FailsToWrite choice.now (S.may_read source.now file.now) (writes O.takes out.old out.new)) }
{
    let text = text_of_file(source, alloc, choice, file)?;
    out.write_bytes(&text).map_err(Error::Printer)
}

/// Returns the text of the module that a file contains.
fn text_of_file<S: Source>(
    source: &S,
    alloc: Global,
    choice: &Choice,
    file: &str,
) -> Result<Vec<u8>, Error>
    ensures printed { IfOk result (λ text. GivesText choice.now (S.may_read source.now file.now) text.items) }
    ensures refused { IfErr result (GivesNoText choice.now (S.may_read source.now file.now)) }
{
    let wasm = source.read(Path::new(file)).map_err(|_| Error::Unreadable)?;
    text_of(alloc, choice, &wasm)
}

/// Returns the text of a module.
fn text_of(alloc: Global, choice: &Choice, wasm: &[u8]) -> Result<Vec<u8>, Error>
    ensures printed { IfOk result (λ text. IsTextBy choice.now wasm.now text.items) }
    ensures refused { IfErr result (IsTextRefusal choice.now.options wasm.now) }
    ensures component { IsErrOf result Error.Component ↔ IsComponent wasm.now }
{
    if choice.is_colored {
        choice.config.print_to_ansi(alloc, wasm)
    } else {
        match choice.config.print_to_string(alloc, wasm) {
            Ok(text) => Ok(text.into_bytes()),
            Err(error) => Err(error),
        }
    }
}

/// Writes the line of an error, and returns exit status 1. A failure to write the line is ignored.
fn refuse<X: Drop, R: Render<X>, E: Sink>(renderer: &R, err: &mut E, error: X) -> u8
    ensures reported { ReportsError (writes E.takes err.old err.new) (R.renders renderer.now) error }
    ensures status { result ≡ refused_status }
{
    let _ = renderer.write_line(err, &error);
    REFUSED
}
