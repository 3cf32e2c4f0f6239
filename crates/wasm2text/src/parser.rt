//! Reading the command line, word by word.
ghost use Rattle.std.specs.Prelude.{◌≡◌, List, map, string_bytes, MatchResult};
ghost use Rattle.wasm2text.specs.Arguments.{Argument, IsSetTo, IsCommandLine, IsArgumentError, request_of};
ghost use Rattle.wasm2text.specs.Parsing.{request_read, Reads, Sets};
ghost use Rattle.wasm2text.specs.declared.parser.Next.TheVariants.{Argument as AnyArgument};
ghost use Rattle.wasm2text.specs.declared.misuse.ArgumentError.TheVariants.{InvalidValue};

use crate::function_ref::FunctionRef;
use crate::misuse::ArgumentError;
use crate::offset::read_offset;
use crate::options::{ColorChoice, Flag, Setting, is_dashed, joined};
use crate::part::Part;
use crate::request::Request;
use crate::target::Target;
use std::alloc::Global;

/// The word after which all words are files.
const END_OF_OPTIONS: &str = "--";

/// What the next word is.
#[derive(Clone, Copy)]
enum Next<'a> {
    /// Any argument.
    Argument,
    /// The value of this option, whose name is the word before.
    Value(Setting, &'a str),
    /// A file.
    File,
}

/// The state between two words of the command line.
#[derive(Drop)]
struct Parser<'a> {
    /// What the words so far ask for.
    request: Request<'a>,
    /// What the next word is.
    next: Next<'a>,
}

impl<'a> Parser<'a> {
    /// Reads a word.
    fn read(&mut self, word: &'a str) -> Result<(), ArgumentError<'a>>
        ensures { Reads self.old word.now result self.new }
    {
        match self.next {
            Next::Argument => self.read_argument(word),
            Next::Value(setting, _) => {
                self.set(setting, word)?;
                self.next = Next::Argument;
                Ok(())
            }
            Next::File => Ok(self.request.add_file(word)?),
        }
    }

    /// Reads a word that starts an argument.
    fn read_argument(&mut self, word: &'a str) -> Result<(), ArgumentError<'a>>
        ensures { self.old.next ≡ AnyArgument → Reads self.old word.now result self.new }
    {
        if !is_dashed(word) {
            return Ok(self.request.add_file(word)?);
        }
        if word == END_OF_OPTIONS {
            self.next = Next::File;
            return Ok(());
        }
        match Flag::named(word) {
            Some(flag) => {
                self.request.add_flag(flag);
                Ok(())
            }
            None => match Setting::named(word) {
                Some(setting) => {
                    self.next = Next::Value(setting, word);
                    Ok(())
                }
                None => match joined(word) {
                    Some((setting, value)) => self.set(setting, value),
                    None => Err(ArgumentError::UnknownOption(word)),
                },
            },
        }
    }

    /// Sets an option to a value.
    fn set(&mut self, setting: Setting, value: &'a str) -> Result<(), ArgumentError<'a>>
        ensures { MatchResult result
            (λ _. (argument : Argument) × IsSetTo setting value.now argument × Sets self.old argument self.new)
            (λ error. (error ≡ InvalidValue setting value.entry) × ((argument : Argument) → IsSetTo setting value.now argument → ⊥)) }
    {
        let invalid = ArgumentError::InvalidValue { setting, value };
        match setting {
            Setting::Output => self.request.write_to(value),
            Setting::Indent => match value.parse::<u32>() {
                Ok(spaces) => self.request.indent_by(spaces),
                Err(_) => return Err(invalid),
            },
            Setting::Color => match ColorChoice::named(value) {
                Some(choice) => self.request.choose_color(choice),
                None => return Err(invalid),
            },
            Setting::At => match read_offset(value) {
                Some(offset) => self.request.show_part(Part::Excerpt(Target::Byte(offset))),
                None => return Err(invalid),
            },
            Setting::CodeOffset => match read_offset(value) {
                Some(offset) => self
                    .request
                    .show_part(Part::Excerpt(Target::CodeByte(offset))),
                None => return Err(invalid),
            },
            Setting::Func => match FunctionRef::named(value) {
                Some(function) => self.request.show_part(Part::Function(function)),
                None => return Err(invalid),
            },
        }
        Ok(())
    }
}

/// Returns what the words ask for.
///
/// # Errors
///
/// - `UnknownOption`: a word starts with `-`, and is no option.
/// - `MissingValue`: the value of an option is missing.
/// - `InvalidValue`: an option can't have its value.
/// - `Memory`: an allocation failed.
pub fn parse<'a>(alloc: Global, words: &'a [String]) -> Result<Request<'a>, ArgumentError<'a>>
    ensures { MatchResult result
        (λ request. (arguments : List Argument) × IsCommandLine arguments (map string_bytes words.now) × (request_read request ≡ request_of arguments))
        (IsArgumentError (map string_bytes words.now)) }
{
    let mut parser = Parser {
        request: Request::new(alloc),
        next: Next::Argument,
    };
    for word in words {
        parser.read(word.as_str())?;
    }
    match parser.next {
        Next::Value(_, name) => Err(ArgumentError::MissingValue(name)),
        Next::Argument | Next::File => Ok(parser.request),
    }
}
