//! The trait [`Print`]: the destination for text, lines and styles.
ghost use Rattle.std.specs.Prelude.{◌≡◌, Bool, [], ◌∷◌};
ghost use Rattle.wasmprinter_spec.specs.Call.{Text, Newline, Line, Start, Claim, Literal, Name, Keyword, TypeName, Comment, Reset};
ghost use Rattle.wasmprinter_spec.specs.Meaning.{Meaning, Succeeded};
ghost use Rattle.wasmprinter_print.specs.MadeCalls.{MakesCall, AsksPrinter, MadeCalls, ending};

use std::io;

/// A destination for the text of a module. A printer that needs only the text implements [`PrintText`] instead.
///
/// An implementation states the meaning of its calls: the state that each call leaves, when it may fail, and the
/// state after a failure. All printing code is proved against this meaning. Printing stops at the first call that
/// fails, and returns that call's error.
///
/// `MakesCall meaning old call new result` says that the meaning allows this result of the call in the state `old`, with
/// the state `new` after it. A failure is counted if the meaning counts failures. `AsksPrinter` says the same of a call
/// that returns an answer, `Succeeded` of one that cannot fail.
pub trait Print {
    /// The meaning of the calls: the state that each call leaves, when it may fail, and the state after a failure.
    ghost meaning: { Meaning Self };

    /// Whether colors can be written to this printer as text.
    ghost colors: { Self → Bool };

    /// Writes a piece of text.
    ///
    /// # Errors
    /// - The printer's error. Printing stops and returns it.
    fn write_str(&mut self, s: &str) -> io::Result<()>
        ensures { MakesCall meaning self.old (Text s.now) self.new result };

    /// Writes a run of characters of a quoted string. Printing calls it only if [`Print::takes_runs`] returns `true`.
    /// The default body makes one call of [`Print::write_str`] for each character. By the contract (`MadeCalls`), any
    /// calls will do that together write the text.
    ///
    /// # Errors
    /// - The printer's error. Printing stops and returns it. The calls up to the failed one were then made.
    fn write_each_char(&mut self, s: &str) -> io::Result<()>
        ensures { MadeCalls meaning self.old self.new (ending result) (Text s.now ∷ []) }
    {
        for c in s.chars() {
            self.write_str(c.encode_utf8(&mut [0; 4]))?;
        }
        Ok(())
    }

    /// Returns whether several characters of a quoted string may be passed to one call of
    /// [`Print::write_each_char`]. By default they may not: a plain character is then written by one call, and an
    /// escape by one call for each of its parts. A hint annotation and the text of a folded operator are one call
    /// each, with their strings. Must return the same value at each call. It decides how text is split into calls,
    /// never the text itself.
    #[inline(always)]
    fn takes_runs(&self) -> bool {
        false
    }

    /// Ends the current line.
    ///
    /// # Errors
    /// - The printer's error. Printing stops and returns it.
    fn newline(&mut self) -> io::Result<()>
        ensures { MakesCall meaning self.old Newline self.new result };

    /// Starts a line. `binary_offset` is the place of the line: a byte offset from the start of the module, or
    /// `None` if the line shows nothing of the module.
    fn start_line(&mut self, binary_offset: Option<u64>)
        ensures { Succeeded meaning self.old (Line binary_offset) self.new };

    /// Reports whether the printer claims a custom section. A claimed section is not printed. `name` and `bytes`
    /// are its name and its data, `binary_offset` is the byte offset of the data from the start of the module.
    ///
    /// # Errors
    /// - The printer's error. Printing stops and returns it.
    fn print_custom_section(
        &mut self,
        name: &str,
        binary_offset: u64,
        bytes: &[u8],
    ) -> io::Result<bool>
        ensures { AsksPrinter meaning self.old (Claim name.now binary_offset bytes.now) self.new result };

    /// Starts the style of literals: of constants, strings and limits. The style lasts until another one starts, or until
    /// [`Print::reset_color`]. Styles are not nested.
    ///
    /// # Errors
    /// - The printer's error. Printing stops and returns it.
    fn start_literal(&mut self) -> io::Result<()>
        ensures { MakesCall meaning self.old (Start Literal) self.new result };

    /// Starts the style of the names and indices of items.
    ///
    /// # Errors
    /// - The printer's error. Printing stops and returns it.
    fn start_name(&mut self) -> io::Result<()>
        ensures { MakesCall meaning self.old (Start Name) self.new result };

    /// Starts the style of keywords.
    ///
    /// # Errors
    /// - The printer's error. Printing stops and returns it.
    fn start_keyword(&mut self) -> io::Result<()>
        ensures { MakesCall meaning self.old (Start Keyword) self.new result };

    /// Starts the style of types.
    ///
    /// # Errors
    /// - The printer's error. Printing stops and returns it.
    fn start_type(&mut self) -> io::Result<()>
        ensures { MakesCall meaning self.old (Start TypeName) self.new result };

    /// Starts the style of comments.
    ///
    /// # Errors
    /// - The printer's error. Printing stops and returns it.
    fn start_comment(&mut self) -> io::Result<()>
        ensures { MakesCall meaning self.old (Start Comment) self.new result };

    /// Ends the current style: the text after it has none.
    ///
    /// # Errors
    /// - The printer's error. Printing stops and returns it.
    fn reset_color(&mut self) -> io::Result<()>
        ensures { MakesCall meaning self.old (Start Reset) self.new result };

    /// Returns whether the text that is passed to this printer may contain ANSI escape sequences. If not, the text of
    /// folded operators has no styles.
    fn supports_async_color(&self) -> bool
        ensures { result ≡ colors self.now };
}
