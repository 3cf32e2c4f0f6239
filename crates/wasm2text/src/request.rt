//! What the command line asks for.
ghost use Rattle.std.specs.Prelude.{◌≡◌, IfOk, OnOk, is_none, option_copied, option_map};
ghost use Rattle.wasm2text.specs.Arguments.{Flagged, WrittenTo, IndentedBy, Colored, Shows, File, request_of, with_input};
ghost use Rattle.wasm2text.specs.Outcome.{is_colored, form_view, form_of};
ghost use Rattle.wasm2text.specs.Parsing.{request_read, options_read, Adds};
ghost use Rattle.wasm2text.specs.Parts.{part_view};

use crate::form::Form;
use crate::options::{ColorChoice, Flag};
use crate::part::Part;
use std::alloc::{AllocError, Global};
use wasmprinter::Config;

/// The name of standard input as a file.
pub const STANDARD_INPUT: &str = "-";

/// The text of one space.
pub const SPACE: &str = " ";

/// What the command line asks for.
#[derive(Drop)]
pub struct Request<'a> {
    /// The help is asked for.
    pub help: bool,
    /// The version is asked for.
    pub version: bool,
    /// Each line after the first begins with its place.
    pub print_offsets: bool,
    /// Bodies, items of element segments, and bytes of data segments and `(@custom ..)` are left out.
    pub skeleton: bool,
    /// Identifiers are synthesized for items without a name.
    pub name_unnamed: bool,
    /// Each operator is printed in parentheses with its operands.
    pub fold_instructions: bool,
    /// The number of spaces of a level of nesting, or `None` for the default.
    pub indent: Option<u32>,
    /// Whether the text has ANSI escape sequences.
    pub color: ColorChoice,
    /// The file to which the text is written, or `None` for standard output.
    pub output: Option<&'a str>,
    /// What is written of each module instead of its whole text, or `None` for whole texts.
    pub part: Option<Part<'a>>,
    /// The files with modules, in order.
    pub files: Vec<&'a str>,
}

impl<'a> Request<'a> {
    ghost use Rattle.std.specs.Prelude.{[]};

    /// Returns the request of a command line without arguments. Allocates nothing.
    pub fn new(alloc: Global) -> Request<'a>
        ensures { request_read result ≡ request_of [] }
    {
        Request {
            help: false,
            version: false,
            print_offsets: false,
            skeleton: false,
            name_unnamed: false,
            fold_instructions: false,
            indent: None,
            color: ColorChoice::Auto,
            output: None,
            part: None,
            files: Vec::new(alloc),
        }
    }

    /// Adds an option without a value.
    pub fn add_flag(&mut self, flag: Flag)
        ensures { Adds self.old (Flagged flag) self.new }
    {
        match flag {
            Flag::Help => self.help = true,
            Flag::Version => self.version = true,
            Flag::PrintOffsets => self.print_offsets = true,
            Flag::Skeleton => self.skeleton = true,
            Flag::NameUnnamed => self.name_unnamed = true,
            Flag::FoldInstructions => self.fold_instructions = true,
            Flag::Hidden => self.part = Some(Part::Hidden),
        }
    }

    /// Sets the file to which the text is written.
    pub fn write_to(&mut self, file: &'a str)
        ensures { Adds self.old (WrittenTo file.now) self.new }
    {
        self.output = Some(file);
    }

    /// Sets the number of spaces of a level of nesting.
    pub fn indent_by(&mut self, spaces: u32)
        ensures { Adds self.old (IndentedBy spaces) self.new }
    {
        self.indent = Some(spaces);
    }

    /// Sets whether the text has ANSI escape sequences.
    pub fn choose_color(&mut self, color: ColorChoice)
        ensures { Adds self.old (Colored color) self.new }
    {
        self.color = color;
    }

    /// Sets what is written of each module instead of its whole text.
    pub fn show_part(&mut self, part: Part<'a>)
        ensures { Adds self.old (Shows (part_view part.entry)) self.new }
    {
        self.part = Some(part);
    }

    /// Adds a file.
    pub fn add_file(&mut self, file: &'a str) -> Result<(), AllocError>
        ensures { OnOk result (Adds self.old (File file.now) self.new) }
    {
        self.files.push(file)?;
        Ok(())
    }

    /// Adds standard input if there is no file.
    pub fn add_input(&mut self) -> Result<(), AllocError>
        ensures { OnOk result (request_read self.new ≡ with_input (request_read self.old)) }
    {
        if !self.files.is_empty() {
            return Ok(());
        }
        self.files.push(STANDARD_INPUT)?;
        Ok(())
    }

    /// Returns the options of printing.
    pub fn config(&self, alloc: Global) -> Result<Config, AllocError>
        ensures { IfOk result (λ config. config ≡ options_read self.now) }
    {
        let mut config = Config::new();
        config
            .print_offsets(self.print_offsets)
            .print_skeleton(self.skeleton)
            .name_unnamed(self.name_unnamed)
            .fold_instructions(self.fold_instructions);
        if let Some(spaces) = self.indent {
            config.indent_text(SPACE.repeat(alloc, spaces as usize)?);
        }
        Ok(config)
    }

    /// Returns what is written for each module, if standard output shows colors or does not. A part has no colors.
    pub fn form(&self, shows_colors: bool) -> Form<'a>
        ensures { form_view result
            ≡ form_of (option_map part_view self.now.part) (is_colored self.now.color (option_copied self.now.output) shows_colors) }
    {
        match self.part {
            Some(part) => Form::Part(part),
            None if self.is_colored(shows_colors) => Form::InColors,
            None => Form::Plain,
        }
    }

    /// Returns whether the text has ANSI escape sequences, if standard output shows colors or does not.
    fn is_colored(&self, shows_colors: bool) -> bool
        ensures { result ≡ is_colored self.now.color (option_copied self.now.output) shows_colors }
    {
        match self.color {
            ColorChoice::Auto => shows_colors && self.output.is_none(),
            ColorChoice::Always => true,
            ColorChoice::Never => false,
        }
    }
}
