//! The output of layout code.
ghost use Rattle.std.specs.Prelude.{◌≡◌, ◌≤◌, true, Bool, List, [], ◌∷◌, if◌then◌else◌};
ghost use Rattle.wasmprinter_spec.specs.Call.{Call, Text, Newline, Line, Start, Reset, Claim};
ghost use Rattle.wasmprinter_spec.specs.Options.{Options};
ghost use Rattle.wasmprinter_spec.specs.Piece.{Piece, most_indents, repetition_of};
ghost use Rattle.wasmprinter_spec.specs.Layout.Customs.{Part, Stops};
ghost use Rattle.wasmprinter_print.specs.Styles.{style_of};
ghost use Rattle.wasmprinter_print.specs.OutputLaws.{CallThen, CallsThen, TextThen, ByteThen, NoText, OneThen, AllThen, NoneOf, Skipped};
ghost use Rattle.wasmprinter_print.specs.OutputLaws.{PieceOf, BreakOf, PartOf, StopOf, GroupOf, GroupAtOf, PartsAtOf};

use crate::Style;

/// A destination for layout code: a printer with the options of the layout. It records the first error, and writes
/// nothing after it.
///
/// Layout code is generic over this trait. The contract of a layout function is `O.wrote out.old out.new pieces`:
/// these pieces were written, up to the first error. The laws at the end say how such facts compose; they make
/// most proofs automatic.
pub trait Output {
    /// The options that were chosen for the layout.
    ghost chosen: { Options };

    /// These calls were made, up to how text is split into calls, and up to the first error: a failed call, memory that
    /// ran out, or a refusal. If an error was recorded before, no call was made.
    ghost called: { Self → Self → List Call → Type 0 };

    /// The calls of these pieces were made, up to the first error in the same way.
    ghost wrote: { Self → Self → List Piece → Type 0 };

    /// The calls of these parts of a module were made, up to the first error in the same way, or up to a part at which
    /// the layout ends.
    ghost laid: { Self → Self → List Part → Type 0 };

    /// An error has occurred.
    ghost failed: { Self → Bool };

    /// A line has begun in the innermost open group.
    ghost begun: { Self → Bool };

    /// It was recorded that a line has begun.
    ghost begins: { Self → Self → Type 0 };

    /// A group was opened. The Boolean says whether a line had begun in the group around it.
    ghost opened: { Self → Self → Bool → Type 0 };

    /// The innermost group was left. The Boolean says whether a line had begun in the group around it when this group
    /// was opened.
    ghost left_group: { Self → Self → Bool → Type 0 };

    /// Returns whether lines after the first start with their byte offsets.
    fn offsets(&self) -> bool
        ensures { result ≡ chosen.offsets };

    /// Returns whether the text is a skeleton: without bodies, items of element segments, and bytes of data segments
    /// and custom sections.
    fn skeleton(&self) -> bool
        ensures { result ≡ chosen.skeleton };

    /// Returns whether operators are folded.
    fn folds(&self) -> bool
        ensures { result ≡ chosen.folds };

    /// Returns whether an error has occurred.
    fn has_failed(&self) -> bool
        ensures { result ≡ failed self.now };

    /// Writes a text.
    fn write_str(&mut self, s: &str)
        ensures { called self.old self.new (Text s.now ∷ []) };

    /// Writes a text. The printer may split it into several calls: how is not part of the contract.
    fn write_each_char(&mut self, s: &str)
        ensures { called self.old self.new (Text s.now ∷ []) };

    /// Returns whether the printer accepts runs of characters in one call of `write_each_char`.
    fn takes_runs(&self) -> bool;

    /// Ends a line.
    fn end_line(&mut self)
        ensures { called self.old self.new (Newline ∷ []) };

    /// Starts a line for the item at this byte offset from the start of the module, or for no item if it is `None`.
    fn start_line(&mut self, place: Option<u64>)
        ensures { called self.old self.new (Line place ∷ []) };

    /// Chooses a style.
    fn start(&mut self, style: Style)
        ensures { called self.old self.new (Start (style_of style) ∷ []) };

    /// Returns to text without a style.
    fn reset_color(&mut self)
        ensures { called self.old self.new (Start Reset ∷ []) };

    /// Writes the indent of one level.
    fn write_level(&mut self)
        ensures { called self.old self.new (Text chosen.indent ∷ []) };

    /// Writes the indent of this many levels, at most 50, and returns `true`; or writes nothing and returns `false`,
    /// which any call may do.
    fn write_levels(&mut self, levels: usize) -> bool
        requires { levels ≤ most_indents }
        ensures { called self.old self.new (if result then Text (repetition_of levels chosen.indent) ∷ [] else []) };

    /// Asks the printer whether it claims a custom section, and returns the answer, which means nothing once an error
    /// has occurred. `place` is the byte offset of the section's data, `bytes`, from the start of the module.
    fn print_custom_section(&mut self, name: &str, place: u64, bytes: &[u8]) -> bool
        ensures { called self.old self.new (Claim name.now place bytes.now result ∷ []) };

    /// Records that a line has begun in the innermost open group.
    fn begin_line(&mut self)
        ensures { begins self.old self.new };

    /// Records that a group was opened, and writes nothing. Returns whether a line had begun in the group around it,
    /// which [`Output::leave_group`] needs.
    fn enter_group(&mut self) -> bool
        ensures { opened self.old self.new result };

    /// Returns whether a line has begun in the innermost open group.
    fn has_begun(&self) -> bool
        ensures { result ≡ begun self.now };

    /// Leaves the innermost group. A line that began in it has then begun in the group around it. `outer_begun` is
    /// the result of [`Output::enter_group`] for this group: the laws of groups need it.
    fn leave_group(&mut self, outer_begun: bool)
        ensures { left_group self.old self.new outer_begun };

    /// Ends the layout, since a `dylink.0` section has a subsection with this unknown id.
    fn refuse_subsection(&mut self, id: u8)
        ensures { laid self.old self.new (Stops [] id ∷ []) };

    // Each law follows from the law of composition, `effect_both` of `specs/EffectLaws`.
    ghost call_then: { CallThen called };

    ghost calls_then: { CallsThen called };

    ghost text_then: { TextThen called };

    ghost byte_then: { ByteThen called };

    ghost no_text: { NoText called };

    ghost no_call: { NoneOf called };

    ghost piece_of: { PieceOf chosen called wrote };

    ghost break_of: { BreakOf chosen called wrote begins };

    ghost piece_then: { OneThen wrote };

    ghost pieces_then: { AllThen wrote };

    ghost no_piece: { NoneOf wrote };

    ghost group_of: { GroupOf wrote begun opened left_group };

    ghost group_at_of: { GroupAtOf chosen wrote begun opened left_group };

    ghost part_of: { PartOf wrote laid };

    ghost stop_of: { StopOf wrote laid };

    ghost parts_at_of: { PartsAtOf chosen wrote laid begun opened left_group };

    ghost part_then: { OneThen laid };

    ghost parts_then: { AllThen laid };

    ghost no_part: { NoneOf laid };

    ghost calls_skipped: { Skipped called failed };

    ghost pieces_skipped: { Skipped wrote failed };

    ghost parts_skipped: { Skipped laid failed };
}

/// The output of layout code that may fold operators. Other layout code is generic over [`Output`] alone, so it can't
/// record that memory ran out.
pub trait FoldingOutput: Output {
    /// Records that an allocation failed, and makes no call. The options must fold operators. An empty list of calls is
    /// a prefix of the calls of any pieces, so the contract holds for each list of pieces.
    fn run_out_of_memory(&mut self)
        requires { Self.chosen.folds ≡ true }
        ensures { (xs : List Piece) → Self.wrote self.old self.new xs };
}
