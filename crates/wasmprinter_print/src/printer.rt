//! The output over a printer.
ghost use Rattle.std.specs.Prelude.{◌≡◌, None, false};
ghost use Rattle.wasmprinter_spec.specs.Options.{Options, defaults, with_color};
ghost use Rattle.wasmprinter_print.specs.Errors.{result_of};

use crate::{FoldingOutput, Halt, Output, Print, PrintOptions, Style};
use std::marker::{Brand, PhantomData};
use wasmprinter_bytes::Error;

/// The options of a layout, as contracts know them. A caller picks them by `Brand`.
pub trait LayoutOptions {
    ghost options: { Options };
}

/// `Brand` has the default options, unless the proof of the caller picks others.
impl LayoutOptions for Brand {
    ghost options = { defaults };
}

/// A printer, the options of the layout, the first error, and whether a line has begun in the innermost open group.
pub struct Printer<'o, 'p, P, K: LayoutOptions> {
    pub printer: &'p mut P,
    pub options: &'o PrintOptions,
    pub halt: Option<Halt>,
    pub begun: bool,
    pub of: PhantomData<K>,
    pub ghost agrees: { with_color options.now K.options.color ≡ K.options },
}

impl<'o, 'p, P, K: LayoutOptions> Printer<'o, 'p, P, K> {
    /// Creates an output over `printer`. No error is recorded, and no line has begun.
    ///
    /// `K.options`, the options as contracts know them, must be `options`, except for whether the text of folded
    /// operators has ANSI escape sequences, which `PrintOptions` does not hold.
    pub fn new(printer: &'p mut P, options: &'o PrintOptions) -> Printer<'o, 'p, P, K>
        requires { with_color options.now K.options.color ≡ K.options }
        ensures printer { result.printer ≡ printer.entry }
        ensures options { result.options ≡ options.entry }
        ensures halt { result.halt ≡ None }
        ensures begun { result.begun ≡ false }
    {
        Printer {
            printer,
            options,
            halt: None,
            begun: false,
            of: PhantomData,
        }
    }

    /// Ends the output, so that its printer can be used again, in the state that it has now (`printer`: `self.exit.0`
    /// is the reference to the printer at the return). Returns the error that was recorded, if any (`result`).
    ///
    /// # Errors
    ///
    /// - `Printer` with the printer's error, for [`Halt::Printer`].
    /// - `Memory`, for [`Halt::Memory`].
    /// - `DylinkSubsection` with the id, for [`Halt::Refused`].
    pub fn finish(self) -> Result<(), Error>
        ensures printer { self.exit.0.now ≡ self.entry.printer.now }
        ensures result { result ≡ result_of self.entry.halt }
    {
        let Printer {
            printer: _,
            options: _,
            halt,
            begun: _,
            of: _,
        } = self;
        match halt {
            None => Ok(()),
            Some(halt) => Err(halt.into_error()),
        }
    }
}

impl<'o, 'p, P: Print, K: LayoutOptions> Output for Printer<'o, 'p, P, K> {
    ghost use Rattle.std.specs.Prelude.{◌≡◌, true, false, [], ◌∷◌, Some, refl, is_some};
    ghost use Rattle.std.proofs.Common.{◌∙◌};
    ghost use Rattle.wasmprinter_print.specs.Effects.{HasEffect, Opened, LeftGroup, state, of_calls, of_pieces, of_parts};
    ghost use Rattle.wasmprinter_print.specs.EffectLaws.{effect_none, effect_no_text, both_calls, both_texts, one_piece, one_break, both_pieces, closed, closed_parts, shown, stopped, both_parts, skipped};

    ghost chosen = { K.options };

    ghost called = { λ a t l. HasEffect P.meaning K.options (state a.printer.now a.halt a.begun) (state t.printer.now t.halt t.begun) (of_calls l)
        × (t.printer.ghost_name ≡ a.printer.ghost_name) };

    ghost wrote = { λ a t xs. HasEffect P.meaning K.options (state a.printer.now a.halt a.begun) (state t.printer.now t.halt t.begun) (of_pieces K.options xs)
        × (t.printer.ghost_name ≡ a.printer.ghost_name) };

    ghost laid = { λ a t ps. HasEffect P.meaning K.options (state a.printer.now a.halt a.begun) (state t.printer.now t.halt t.begun) (of_parts K.options ps)
        × (t.printer.ghost_name ≡ a.printer.ghost_name) };

    ghost failed = { λ a. is_some a.halt };

    ghost begun = { λ a. a.begun };

    ghost begins = { λ s t. (state t.printer.now t.halt t.begun ≡ record (state s.printer.now s.halt s.begun) { begun = true })
        × (t.printer.ghost_name ≡ s.printer.ghost_name) };

    ghost opened = { λ a s outer_begun. Opened (state a.printer.now a.halt a.begun) (state s.printer.now s.halt s.begun) outer_begun
        × (s.printer.ghost_name ≡ a.printer.ghost_name) };

    ghost left_group = { λ u v outer_begun. LeftGroup (state u.printer.now u.halt u.begun) (state v.printer.now v.halt v.begun) outer_begun
        × (v.printer.ghost_name ≡ u.printer.ghost_name) };

    ghost call_then = { λ a s t c k v w. (both_calls P.meaning K.options (c ∷ []) k v.0 w.0, w.1 ∙ v.1) };

    ghost calls_then = { λ a s t l k v w. (both_calls P.meaning K.options l k v.0 w.0, w.1 ∙ v.1) };

    ghost text_then = { λ a s t x y k v w. (both_texts P.meaning K.options x y k v.0 w.0, w.1 ∙ v.1) };

    ghost byte_then = { λ a s t x y k v w. (both_texts P.meaning K.options (x ∷ []) y k v.0 w.0, w.1 ∙ v.1) };

    ghost no_text = { λ a. (effect_no_text P.meaning K.options (state a.printer.now a.halt a.begun), refl) };

    ghost no_call = { λ a. (effect_none P.meaning K.options (state a.printer.now a.halt a.begun), refl) };

    ghost piece_of = { λ a t x e v. (one_piece P.meaning K.options x e v.0, v.1) };

    ghost break_of = { λ a s t x q e v. (one_break P.meaning K.options (state t.printer.now t.halt t.begun) x e q.0 v.0, q.1 ∙ v.1) };

    ghost piece_then = { λ a s t x xs v w. (both_pieces P.meaning K.options (x ∷ []) xs v.0 w.0, w.1 ∙ v.1) };

    ghost pieces_then = { λ a s t xs ys v w. (both_pieces P.meaning K.options xs ys v.0 w.0, w.1 ∙ v.1) };

    ghost no_piece = { λ a. (effect_none P.meaning K.options (state a.printer.now a.halt a.begun), refl) };

    ghost group_of = { λ a s t v outer_begun place n xs h w c.
        (closed P.meaning K.options false outer_begun place n xs h.0 w.0 c.written.0 c.leaves.0, c.leaves.1 ∙ (c.written.1 ∙ (w.1 ∙ h.1))) };

    ghost group_at_of = { λ a s t v outer_begun place n xs h w c. (
      closed P.meaning K.options K.options.offsets outer_begun (Some place) n xs h.0 w.0 c.written.0 c.leaves.0,
      c.leaves.1 ∙ (c.written.1 ∙ (w.1 ∙ h.1)),
    ) };

    ghost part_of = { λ a t xs v. (shown P.meaning K.options xs v.0, v.1) };

    ghost stop_of = { λ a s t xs ys id v w. (stopped P.meaning K.options xs ys id v.0 w.0, w.1 ∙ v.1) };

    ghost parts_at_of = { λ a s t v outer_begun place n ps h w c. (
      closed_parts P.meaning K.options K.options.offsets outer_begun (Some place) n ps h.0 w.0 c.written.0 c.leaves.0,
      c.leaves.1 ∙ (c.written.1 ∙ (w.1 ∙ h.1)),
    ) };

    ghost part_then = { λ a s t p ps v w. (both_parts P.meaning K.options (p ∷ []) ps v.0 w.0, w.1 ∙ v.1) };

    ghost parts_then = { λ a s t ps qs v w. (both_parts P.meaning K.options ps qs v.0 w.0, w.1 ∙ v.1) };

    ghost no_part = { λ a. (effect_none P.meaning K.options (state a.printer.now a.halt a.begun), refl) };

    ghost calls_skipped = { λ a l e. (skipped P.meaning K.options (state a.printer.now a.halt a.begun) (of_calls l) e, refl) };

    ghost pieces_skipped = { λ a xs e. (skipped P.meaning K.options (state a.printer.now a.halt a.begun) (of_pieces K.options xs) e, refl) };

    ghost parts_skipped = { λ a ps e. (skipped P.meaning K.options (state a.printer.now a.halt a.begun) (of_parts K.options ps) e, refl) };

    #[inline(always)]
    fn offsets(&self) -> bool {
        let options = self.options;
        options.offsets
    }

    #[inline(always)]
    fn skeleton(&self) -> bool {
        let options = self.options;
        options.skeleton
    }

    #[inline(always)]
    fn folds(&self) -> bool {
        let options = self.options;
        options.folds
    }

    #[inline(always)]
    fn has_failed(&self) -> bool {
        self.halt.is_some()
    }

    #[inline(always)]
    #[tactic(auto, using(crate::specs::EffectLaws::call_done, crate::specs::EffectLaws::call_failed))]
    fn write_str(&mut self, s: &str) {
        if self.halt.is_none() {
            if let Err(e) = self.printer.write_str(s) {
                self.halt = Some(Halt::Printer(e));
            }
        }
    }

    #[inline(always)]
    fn write_each_char(&mut self, s: &str) {
        if self.halt.is_none() {
            if let Err(e) = self.printer.write_each_char(s) {
                self.halt = Some(Halt::Printer(e));
            }
        }
    }

    #[inline(always)]
    fn takes_runs(&self) -> bool {
        self.printer.takes_runs()
    }

    #[inline(always)]
    #[tactic(auto, using(crate::specs::EffectLaws::call_done, crate::specs::EffectLaws::call_failed))]
    fn end_line(&mut self) {
        if self.halt.is_none() {
            if let Err(e) = self.printer.newline() {
                self.halt = Some(Halt::Printer(e));
            }
        }
    }

    #[inline(always)]
    #[tactic(auto, using(crate::specs::EffectLaws::call_done))]
    fn start_line(&mut self, place: Option<u64>) {
        if self.halt.is_none() {
            self.printer.start_line(place);
        }
    }

    #[inline(always)]
    #[tactic(auto, using(crate::specs::EffectLaws::call_done, crate::specs::EffectLaws::call_failed))]
    fn start(&mut self, style: Style) {
        if self.halt.is_some() {
            return;
        }
        let result = match style {
            Style::Literal => self.printer.start_literal(),
            Style::Name => self.printer.start_name(),
            Style::Keyword => self.printer.start_keyword(),
            Style::TypeName => self.printer.start_type(),
            Style::Comment => self.printer.start_comment(),
        };
        if let Err(e) = result {
            self.halt = Some(Halt::Printer(e));
        }
    }

    #[inline(always)]
    #[tactic(auto, using(crate::specs::EffectLaws::call_done, crate::specs::EffectLaws::call_failed))]
    fn reset_color(&mut self) {
        if self.halt.is_none() {
            if let Err(e) = self.printer.reset_color() {
                self.halt = Some(Halt::Printer(e));
            }
        }
    }

    fn write_level(&mut self) {
        let options = self.options;
        self.write_str(options.indent());
    }

    fn write_levels(&mut self, levels: usize) -> bool {
        let options = self.options;
        match options.indent_of(levels) {
            Some(indent) => {
                self.write_str(indent);
                true
            }
            None => false,
        }
    }

    #[tactic(auto, using(crate::specs::EffectLaws::call_done, crate::specs::EffectLaws::call_failed))]
    fn print_custom_section(&mut self, name: &str, place: u64, bytes: &[u8]) -> bool {
        if self.halt.is_some() {
            return true;
        }
        match self.printer.print_custom_section(name, place, bytes) {
            Ok(claimed) => claimed,
            Err(e) => {
                self.halt = Some(Halt::Printer(e));
                true
            }
        }
    }

    #[inline(always)]
    fn begin_line(&mut self) {
        self.begun = true;
    }

    #[inline(always)]
    fn enter_group(&mut self) -> bool {
        let outer_begun = self.begun;
        self.begun = false;
        outer_begun
    }

    #[inline(always)]
    fn has_begun(&self) -> bool {
        self.begun
    }

    #[inline(always)]
    fn leave_group(&mut self, outer_begun: bool) {
        self.begun = outer_begun || self.begun;
    }

    fn refuse_subsection(&mut self, id: u8) {
        if self.halt.is_none() {
            self.halt = Some(Halt::Refused(id));
        }
    }
}

impl<'o, 'p, P: Print, K: LayoutOptions> FoldingOutput for Printer<'o, 'p, P, K> {
    fn run_out_of_memory(&mut self) {
        if self.halt.is_none() {
            self.halt = Some(Halt::Memory);
        }
    }
}
