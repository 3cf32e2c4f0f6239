//! A printer of colored text.
ghost use Rattle.std.specs.Prelude.{◌≡◌, ◌&&◌, not};
ghost use Rattle.wasmprinter_spec.specs.Colored.{color_look, strong_look};
ghost use Rattle.wasmprinter_writers.specs.ColorCalls.{colored_meaning};
ghost use Rattle.wasmprinter_writers.specs.Numbers.{number_of};

use crate::{Color, ColorSpec, WriteBytes, WriteColor};
use std::io;
use wasmprinter_print::Print;

/// A printer over a writer with colors. It writes the bytes of each piece and of each line feed, and sets a color
/// for each style.
#[derive(Drop)]
pub struct PrintTermcolor<T>(pub T);

/// Returns the look of text in a color, neither bold nor intense.
fn spec_of_color(color: Color) -> ColorSpec
    ensures { result ≡ color_look (number_of color) }
{
    let mut spec = ColorSpec::new();
    spec.set_fg(Some(color));
    spec
}

/// Returns the look of bold text in the intense shade of a color.
fn strong(color: Color) -> ColorSpec
    ensures { result ≡ strong_look (number_of color) }
{
    let mut spec = spec_of_color(color);
    spec.set_bold(true).set_intense(true);
    spec
}

impl<T: WriteColor + WriteBytes> Print for PrintTermcolor<T> {
    ghost meaning = { colored_meaning (λ s. s.0) T.takes T.sets_color };

    ghost colors = { λ s. T.is_colored s.0 && not (T.is_immediate s.0) };

    fn write_str(&mut self, s: &str) -> io::Result<()> {
        self.0.write_bytes(s.as_bytes())
    }

    fn newline(&mut self) -> io::Result<()> {
        self.write_str("\n")
    }

    fn start_line(&mut self, _binary_offset: Option<u64>) {}

    fn print_custom_section(
        &mut self,
        _name: &str,
        _binary_offset: u64,
        _bytes: &[u8],
    ) -> io::Result<bool> {
        Ok(false)
    }

    fn start_literal(&mut self) -> io::Result<()> {
        self.0.set_color(&spec_of_color(Color::Red))
    }

    fn start_name(&mut self) -> io::Result<()> {
        self.0.set_color(&spec_of_color(Color::Magenta))
    }

    fn start_keyword(&mut self) -> io::Result<()> {
        self.0.set_color(&strong(Color::Yellow))
    }

    fn start_type(&mut self) -> io::Result<()> {
        self.0.set_color(&strong(Color::Green))
    }

    fn start_comment(&mut self) -> io::Result<()> {
        self.0.set_color(&spec_of_color(Color::Cyan))
    }

    fn reset_color(&mut self) -> io::Result<()> {
        self.0.reset()
    }

    fn supports_async_color(&self) -> bool {
        self.0.supports_color() && !self.0.is_synchronous()
    }
}
