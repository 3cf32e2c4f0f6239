//! The options of printing, and the calls that print a module with them.
ghost use Rattle.std.specs.Prelude.{◌≡◌, ◌↔◌, true, OnOk, IfErr, IsErrOf, string_bytes};
ghost use Rattle.wasmprinter_spec.specs.Binary.{IsComponent};
ghost use Rattle.wasmprinter_spec.specs.Folding.Refusals.{IsFoldable};
ghost use Rattle.wasmprinter_fold.specs.Refused.{HasFoldReason};
ghost use Rattle.wasmprinter_print.specs.Change.{change};
ghost use Rattle.wasmprinter.specs.Printed.{Printed};
ghost use Rattle.wasmprinter.specs.Outcome.{IsPrintRefusal, Leaves};

use std::alloc::Global;
use std::marker::Model;
use wasmprinter_bytes::Error;
use wasmprinter_custom::Identifiers;
use wasmprinter_decoder::{Module, decode};
use wasmprinter_flat::open_labels::OpenLabels;
use wasmprinter_fold::fold_refusals::check_folding;
use wasmprinter_module_text::print_module;
use wasmprinter_print::{Print, PrintOptions};

/// The options of printing: which parts of a module are printed, and in which form.
#[derive(Debug, Drop)]
pub struct Config {
    options: PrintOptions,
}

impl Model for Config {
    ghost use Rattle.wasmprinter_spec.specs.Options.{Options};

    ghost Value = { Options };

    ghost view = { λ c. c.options };
}

impl Config {
    ghost use Rattle.wasmprinter_spec.specs.Options.{defaults};

    /// Returns the default options: lines without places, all bodies, no synthesized identifiers, flat operators,
    /// and an indent of two spaces.
    pub fn new() -> Config
        ensures { result ≡ defaults }
    {
        Config {
            options: PrintOptions::new(),
        }
    }

    /// Sets whether each line after the first begins with its place: a byte offset from the start of the module,
    /// in hexadecimal and in a comment such as `(;@1f    ;)`. A line without a place begins with that many spaces
    /// instead. Returns `self` (`itself`); the other options stay as they are (`options`).
    ///
    /// With a module `IDENTITY` whose only function returns its parameter:
    ///
    /// ```
    /// let mut config = Config::new();
    /// config.print_offsets(true);
    /// let text = config.print_to_string(rt.alloc(), IDENTITY)?;
    /// assert!(rt; text.lines().nth(4) == Some("(;@20    ;)    local.get 0"));
    /// ```
    pub fn print_offsets(&mut self, print: bool) -> &mut Self
        ensures itself { result.ghost_name ≡ self.entry.ghost_name }
        ensures options { result.now ≡ record self.old { offsets = print } }
    {
        self.options.offsets = print;
        self
    }

    /// Sets whether bodies, items of element segments, and bytes of data segments and `(@custom ..)` are left
    /// out. Returns `self` (`itself`); the other options stay as they are (`options`).
    ///
    /// With a module `IDENTITY` whose only function returns its parameter:
    ///
    /// ```
    /// let mut config = Config::new();
    /// config.print_skeleton(true);
    /// let text = config.print_to_string(rt.alloc(), IDENTITY)?;
    /// let line = text.lines().nth(3);
    /// assert!(rt; line == Some("  (func (;0;) (type 0) (param i32) (result i32) ...)"));
    /// ```
    pub fn print_skeleton(&mut self, print: bool) -> &mut Self
        ensures itself { result.ghost_name ≡ self.entry.ghost_name }
        ensures options { result.now ≡ record self.old { skeleton = print } }
    {
        self.options.skeleton = print;
        self
    }

    /// Sets whether identifiers are synthesized for items without a name, for example `$#func3`. Returns `self`
    /// (`itself`); the other options stay as they are (`options`).
    ///
    /// With a module `IDENTITY` whose only function returns its parameter:
    ///
    /// ```
    /// let mut config = Config::new();
    /// config.name_unnamed(true);
    /// let text = config.print_to_string(rt.alloc(), IDENTITY)?;
    /// assert!(rt; text.lines().nth(4) == Some("    local.get $#local0"));
    /// ```
    pub fn name_unnamed(&mut self, name: bool) -> &mut Self
        ensures itself { result.ghost_name ≡ self.entry.ghost_name }
        ensures options { result.now ≡ record self.old { synthesizes = name } }
    {
        self.options.synthesizes = name;
        self
    }

    /// Sets whether operators are folded: each operator is printed in parentheses with its operands (section 6.5,
    /// "Folded Instructions"), in bodies and in constant expressions. Returns `self` (`itself`); the other options stay
    /// as they are (`options`).
    ///
    /// With a module `IDENTITY` whose only function returns its parameter:
    ///
    /// ```
    /// let mut config = Config::new();
    /// config.fold_instructions(true);
    /// let text = config.print_to_string(rt.alloc(), IDENTITY)?;
    /// assert!(rt; text.lines().nth(4) == Some("    (local.get 0)"));
    /// ```
    pub fn fold_instructions(&mut self, fold: bool) -> &mut Self
        ensures itself { result.ghost_name ≡ self.entry.ghost_name }
        ensures options { result.now ≡ record self.old { folds = fold } }
    {
        self.options.folds = fold;
        self
    }

    /// Sets the text of one level of nesting, by default two spaces. A line is indented by at most 50 levels.
    /// Returns `self` (`itself`); the other options stay as they are (`options`).
    ///
    /// The text is printed unchanged. If it has characters other than spaces and tabs, the printed module is not
    /// guaranteed to read back.
    ///
    /// With a module `IDENTITY` whose only function returns its parameter:
    ///
    /// ```
    /// let mut config = Config::new();
    /// config.indent_text(String::from_str(rt.alloc(), "\t")?);
    /// let text = config.print_to_string(rt.alloc(), IDENTITY)?;
    /// assert!(rt; text.lines().nth(4) == Some("\t\tlocal.get 0"));
    /// ```
    pub fn indent_text(&mut self, text: String) -> &mut Self
        ensures itself { result.ghost_name ≡ self.entry.ghost_name }
        ensures options { result.now ≡ record self.old { indent = string_bytes text } }
    {
        self.options.set_indent(text);
        self
    }

    /// Returns an error if operators are to be folded and something that is printed of the module can't be folded.
    fn check(&self, module: &Module<'_>) -> Result<(), Error>
        ensures foldable { OnOk result (IsFoldable self.now «module».now) }
        ensures refused { IfErr result (λ e. (self.now.folds ≡ true) × HasFoldReason self.now «module».now e) }
    {
        if self.options.folds {
            check_folding(&self.options, module)
        } else {
            Ok(())
        }
    }

    /// Prints the text of a module in the binary format to a printer.
    ///
    /// The whole module is decoded, and its names are read, before the first call on the printer. The module is
    /// not validated. The data of a `dylink.0` section is checked only when that section is reached.
    ///
    /// The printer is asked whether it claims each custom section, `name` and `metadata.code.branch_hint` included.
    /// A claimed section is not printed; its names and hints still apply.
    ///
    /// On `Ok`, the bytes encode a module, and the printer received the calls of the module's text (`printed`). How
    /// that text is split into calls isn't specified. If the indent consists of spaces and tabs, and `skeleton` is off,
    /// that text without ANSI escape sequences has exactly the module's branch hints, if these are valid. It also reads
    /// back as the module, if every index that the module uses is declared and no custom section was claimed.
    ///
    /// Hints are valid if the functions of the last hint section are defined and increase, and if the offsets in each
    /// function are those of operators before the last `end` and increase. An index is declared if it refers to an
    /// item, and to a function type or a field of a structure type where one is required. Labels may refer to nothing.
    ///
    /// ```
    /// let mut printer = PrintIoWrite(Vec::new(rt.alloc()));
    /// Config::new().print(rt.alloc(), b"\0asm\x01\0\0\0", &mut printer)?;
    /// assert!(rt; printer.0.as_slice() == b"(module)\n".as_slice());
    /// ```
    ///
    /// # Errors
    ///
    /// Each error has the cause that is listed here (`refused`); of `Memory`, the contract says only when an allocation
    /// is possible. [`Error`] says what the place, count or id of each is. `Unreadable` is not returned. The calls that
    /// the printer received are as listed too (`left`).
    ///
    /// The printer receives no call before these errors:
    ///
    /// - `Component`: the bytes are marked as a component. This error takes precedence over all others (`component`).
    /// - `Malformed`: the bytes are not in the binary format.
    /// - `TooManyLocals`, `TooManyFunctions`: the module exceeds a limit of this printer.
    /// - `EmptyTableInit`: the initialiser of a table has no operators.
    /// - `FoldLegacy`, only if operators are folded: a `try`, `catch`, `catch_all` or `delegate` can't be folded.
    /// - `FoldHint`, only if operators are folded: a branch hint can't be folded.
    /// - `Memory`: an allocation failed during decoding or while the names were collected. As in [`decode`], this needs
    ///   a section of items with a count above zero, or a custom section.
    ///
    /// The printer receives a prefix of the text before these errors:
    ///
    /// - `Memory`, only if operators are folded: an allocation failed during folding.
    /// - `DylinkSubsection`: a custom section `dylink.0` that the printer does not claim has an unknown
    ///   subsection. All text before that section was printed.
    /// - `Printer`: a call on the printer failed. It holds the error of that call.
    pub fn print<P: Print>(&self, alloc: Global, wasm: &[u8], printer: &mut P) -> Result<(), Error>
        ensures printed { OnOk result (Printed (change P.meaning printer.old printer.new) (P.colors printer.old) self.now wasm.now) }
        ensures refused { IfErr result (IsPrintRefusal (change P.meaning printer.old printer.new) self.now wasm.now) }
        // The state of the printer after the error.
        ensures left { IfErr result (Leaves (change P.meaning printer.old printer.new) (P.colors printer.old) self.now wasm.now) }
        ensures component { IsErrOf result Error.Component ↔ IsComponent wasm.now }
    {
        let module = decode(alloc, wasm)?;
        self.check(&module)?;
        let names = module.names(alloc)?;
        let identifiers = Identifiers {
            names: &names,
            synthesizes: self.options.synthesizes,
        };
        let labels = OpenLabels::new(alloc, identifiers)?;
        print_module(alloc, printer, &self.options, &module, labels)
    }
}

impl Default for Config {
    ghost use Rattle.std.specs.Prelude.{◌≡◌};
    ghost use Rattle.wasmprinter_spec.specs.Options.{defaults};

    ghost is_default = { λ c. c ≡ defaults };

    fn default() -> Config {
        Config::new()
    }
}
