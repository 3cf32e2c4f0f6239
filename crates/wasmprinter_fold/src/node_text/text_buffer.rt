//! The texts of nodes, one after another in one buffer.
ghost use Rattle.std.specs.Prelude.{◌≡◌, false};
ghost use Rattle.wasmprinter_fold.specs.Buffers.{texts_meaning};

use crate::node_text::line_comment_scan::{Semicolons, UNSEEN, see_text};
use crate::nodes::NodeText;
use std::alloc::{AllocError, Global};
use std::io;
use std::marker::{Brand, Model};
use wasmprinter_flat::open_labels::OpenLabels;
use wasmprinter_flat::operators::{Setting, write_operator_word};
use wasmprinter_ops::operator::Operator;
use wasmprinter_print::ansi_sequences::{
    comment_sequences, keyword_sequences, literal_sequences, name_sequences, reset_sequences,
    type_sequences,
};
use wasmprinter_print::{Print, PrintOptions, Printer};
use wasmprinter_text::type_use::Signatures;

/// An operator of a list, with its place and its branch hint.
#[derive(Clone, Copy)]
pub struct HintedOperator<'o, 'a> {
    /// The operator.
    pub operator: &'o Operator<'a>,
    /// The byte offset of the operator from the start of the module.
    pub place: u64,
    /// Whether the operator's branch is hinted as taken, or `None` if it has no hint.
    pub hint: Option<bool>,
}

/// The texts of nodes, one after another in one buffer, with or without the ANSI escape sequences of their styles.
///
/// As a printer it appends to the last text and claims no custom section. A call fails only if an allocation fails,
/// and then leaves the buffer as it was.
#[derive(Drop)]
pub struct Texts {
    text: String,
    color: bool,
    seen: Semicolons,
}

impl Model for Texts {
    ghost use Rattle.std.specs.String.{string_bytes};
    ghost use Rattle.wasmprinter_fold.specs.Buffers.{View};

    ghost Value = { View };

    ghost view = { λ t. record { bytes = string_bytes t.text; color = t.color; seen = t.seen } };
}

impl Texts {
    ghost use Rattle.std.specs.Prelude.{◌≡◌, ◌+◌, ◌<◌, ◌^◌, [], ◌∷◌, length, None, OnOk, OnErr, IfOk};
    ghost use Rattle.wasmprinter_spec.specs.Call.{Text};
    ghost use Rattle.wasmprinter_spec.specs.Options.{defaults};
    ghost use Rattle.wasmprinter_spec.specs.Piece.{all_calls};
    ghost use Rattle.wasmprinter_print.specs.MadeCalls.{MadeCalls, Through};
    ghost use Rattle.wasmprinter_flat.specs.Settings.{word_pieces_with_names};
    ghost use Rattle.wasmprinter_fold.specs.Shown.{shown_of_calls, shown_of_head, IsIn};
    ghost use Rattle.wasmprinter_fold.specs.Buffers.{GrowsText, with_text_begun, with_text, with_sequences};
    ghost use Rattle.wasmprinter_fold.specs.Buffers.{no_semicolons, texts_meaning};

    /// Creates an empty buffer. `color` says whether texts contain escape sequences. This allocates no memory.
    pub fn new(alloc: Global, color: bool) -> Texts
        ensures { result ≡ record { bytes = []; color = color; seen = no_semicolons } }
    {
        Texts {
            text: String::new(alloc),
            color,
            seen: UNSEEN,
        }
    }

    /// Removes all texts and keeps the capacity.
    pub fn clear(&mut self)
        ensures { self.new ≡ record { bytes = []; color = self.old.color; seen = no_semicolons } }
    {
        self.text.clear();
        self.seen = UNSEEN;
    }

    /// Returns all texts, joined.
    pub fn as_str(&self) -> &str
        ensures { result.now ≡ self.now.bytes }
    {
        self.text.as_str()
    }

    /// Begins the next text and returns the byte offset at which it starts in the buffer.
    fn begin(&mut self) -> usize
        ensures buffer { self.new ≡ with_text_begun self.old }
        ensures start { result ≡ length self.old.bytes }
    {
        self.seen = UNSEEN;
        self.text.len()
    }

    /// Appends a piece of text.
    fn push_text(&mut self, piece: &str) -> Result<(), AllocError>
        ensures ok { OnOk result (self.new ≡ with_text self.old piece.now) }
        ensures err { OnErr result (self.new ≡ self.old) }
    {
        self.text.push_str(piece)?;
        self.seen = see_text(self.seen, piece);
        Ok(())
    }

    /// Returns the head of the last text, which starts at `start`.
    fn head(&self, start: usize, place: u64, hint: Option<bool>) -> NodeText
        ensures { result ≡ record
            { place = place; hint = hint; start = start; stop = length self.now.bytes; comment = self.now.seen.double } }
    {
        NodeText {
            place,
            hint,
            start,
            stop: self.text.len(),
            comment: self.seen.double,
        }
    }

    /// Appends the word of an operator and its immediates.
    fn push_operator<S: Signatures>(
        &mut self,
        setting: &Setting<'_, S>,
        labels: &OpenLabels<'_, '_>,
        operator: &Operator<'_>,
    ) -> Result<(), AllocError>
        requires { length labels.now.labels + 1 < 2 ^ 64 }
        ensures color { self.new.color ≡ self.old.color }
        ensures grows { GrowsText self.old.bytes self.new.bytes }
        ensures made { OnOk result (MadeCalls texts_meaning self.old self.new Through
            (all_calls defaults (word_pieces_with_names S.signature_at setting.now labels.now operator.now))) }
    {
        let options = PrintOptions::new();
        let mut out: Printer<'_, '_, Texts, Brand> = Printer::new(self, &options);
        write_operator_word(&mut out, setting, labels, operator);
        match out.finish() {
            Ok(()) => Ok(()),
            Err(_) => Err(AllocError),
        }
    }

    /// Writes the text of an operator's node, its word and immediates, and returns its head. `labels` are those that
    /// are open before the operator, and must be fewer than 2^64 - 1. The head's text is in the buffer (`inside`), and
    /// with its place and hint it is that of the operator (`shows`), by the default options: all options give the same
    /// text. The text is appended: older texts stay, also after an error (`grows`).
    ///
    /// # Errors
    ///
    /// Returns an error if an allocation fails. A prefix of the text then follows the other texts. (The contract says
    /// only that UTF-8 follows them.)
    pub fn write_operator<S: Signatures>(
        &mut self,
        setting: &Setting<'_, S>,
        labels: &OpenLabels<'_, '_>,
        next: HintedOperator<'_, '_>,
    ) -> Result<NodeText, AllocError>
        requires { length labels.now.labels + 1 < 2 ^ 64 }
        ensures color { self.new.color ≡ self.old.color }
        ensures grows { GrowsText self.old.bytes self.new.bytes }
        ensures inside { IfOk result (λ head. IsIn self.new.bytes head) }
        ensures shows { IfOk result (λ head. shown_of_head self.new.bytes head ≡ shown_of_calls next.entry.place next.entry.hint self.old.color
            (all_calls defaults (word_pieces_with_names S.signature_at setting.now labels.now next.entry.operator.now))) }
    {
        let start = self.begin();
        self.push_operator(setting, labels, next.operator)?;
        Ok(self.head(start, next.place, next.hint))
    }

    /// Writes the text of the node of a case of an `if`, which is its keyword, and returns its head. The head's text is
    /// in the buffer (`inside`) and is the keyword, without a hint (`shows`). Older texts stay, also after an error
    /// (`grows`).
    ///
    /// # Errors
    ///
    /// Returns an error if an allocation fails. The texts are then as they were. (The contract says only that older
    /// texts stay.)
    pub fn write_keyword(&mut self, keyword: &str, place: u64) -> Result<NodeText, AllocError>
        ensures color { self.new.color ≡ self.old.color }
        ensures grows { GrowsText self.old.bytes self.new.bytes }
        ensures inside { IfOk result (λ head. IsIn self.new.bytes head) }
        ensures shows { IfOk result (λ head. shown_of_head self.new.bytes head
            ≡ shown_of_calls place None self.old.color (Text keyword.now ∷ [])) }
    {
        let start = self.begin();
        self.push_text(keyword)?;
        Ok(self.head(start, place, None))
    }

    /// Appends the sequences of a style if texts contain them.
    fn push_sequences(&mut self, sequences: &str) -> Result<(), AllocError>
        ensures ok { OnOk result (self.new ≡ with_sequences self.old.color self.old sequences.now) }
        ensures err { OnErr result (self.new ≡ self.old) }
    {
        if self.color {
            self.text.push_str(sequences)?;
        }
        Ok(())
    }
}

impl Print for Texts {
    ghost meaning = { texts_meaning };

    ghost colors = { λ _. false };

    fn write_str(&mut self, s: &str) -> io::Result<()> {
        self.push_text(s)?;
        Ok(())
    }

    fn newline(&mut self) -> io::Result<()> {
        self.push_text("\n")?;
        Ok(())
    }

    fn start_line(&mut self, _binary_offset: Option<u64>) {}

    fn print_custom_section(
        &mut self,
        _name: &str,
        _binary_offset: u64,
        _bytes: &[u8],
    ) -> io::Result<bool> {
        Ok(false)
    }

    fn start_literal(&mut self) -> io::Result<()> {
        self.push_sequences(literal_sequences())?;
        Ok(())
    }

    fn start_name(&mut self) -> io::Result<()> {
        self.push_sequences(name_sequences())?;
        Ok(())
    }

    fn start_keyword(&mut self) -> io::Result<()> {
        self.push_sequences(keyword_sequences())?;
        Ok(())
    }

    fn start_type(&mut self) -> io::Result<()> {
        self.push_sequences(type_sequences())?;
        Ok(())
    }

    fn start_comment(&mut self) -> io::Result<()> {
        self.push_sequences(comment_sequences())?;
        Ok(())
    }

    fn reset_color(&mut self) -> io::Result<()> {
        self.push_sequences(reset_sequences())?;
        Ok(())
    }

    fn supports_async_color(&self) -> bool {
        false
    }
}
