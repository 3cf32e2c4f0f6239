//! The look of text on a terminal.

use crate::Color;
use std::marker::Model;

/// The look of text: its color, if it has one, whether it is bold, and whether the color is the intense one.
#[derive(Debug, Drop)]
pub struct ColorSpec {
    fg: Option<Color>,
    is_bold: bool,
    is_intense: bool,
}

impl Model for ColorSpec {
    ghost use Rattle.wasmprinter_spec.specs.Looks.{Look};

    ghost Value = { Look };

    ghost use Rattle.wasmprinter_writers.specs.Numbers.{color_of};

    ghost view = { λ s. record {
      color = color_of s.fg;
      bold = s.is_bold;
      intense = s.is_intense;
    } };
}

impl ColorSpec {
    ghost use Rattle.std.specs.Prelude.{◌≡◌};
    ghost use Rattle.wasmprinter_spec.specs.Looks.{bare_look};
    ghost use Rattle.wasmprinter_writers.specs.Numbers.{color_of};

    /// Returns the look of plain text: no color, not bold, not intense.
    pub fn new() -> ColorSpec
        ensures { result ≡ bare_look }
    {
        ColorSpec {
            fg: None,
            is_bold: false,
            is_intense: false,
        }
    }

    /// Sets the color, or removes it. Returns `self`; the rest of the look stays.
    pub fn set_fg(&mut self, fg: Option<Color>) -> &mut ColorSpec
        ensures same_reference { result.ghost_name ≡ self.entry.ghost_name }
        ensures set { result.now ≡ record self.old { color = color_of fg } }
    {
        self.fg = fg;
        self
    }

    /// Sets whether text is bold. Returns `self`; the rest of the look stays.
    pub fn set_bold(&mut self, bold: bool) -> &mut ColorSpec
        ensures same_reference { result.ghost_name ≡ self.entry.ghost_name }
        ensures set { result.now ≡ record self.old { bold = bold } }
    {
        self.is_bold = bold;
        self
    }

    /// Sets whether the color is the intense one. Returns `self`; the rest of the look stays.
    pub fn set_intense(&mut self, intense: bool) -> &mut ColorSpec
        ensures same_reference { result.ghost_name ≡ self.entry.ghost_name }
        ensures set { result.now ≡ record self.old { intense = intense } }
    {
        self.is_intense = intense;
        self
    }

    /// Returns the color, if there is one.
    pub fn fg(&self) -> Option<Color>
        ensures { color_of result ≡ self.now.color }
    {
        self.fg
    }

    /// Reports whether text is bold.
    pub fn bold(&self) -> bool
        ensures { result ≡ self.now.bold }
    {
        self.is_bold
    }

    /// Reports whether the color is the intense one.
    pub fn intense(&self) -> bool
        ensures { result ≡ self.now.intense }
    {
        self.is_intense
    }
}
