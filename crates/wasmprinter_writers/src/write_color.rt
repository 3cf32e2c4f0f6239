//! Writers with colors.
ghost use Rattle.std.specs.Prelude.{◌≡◌, Bool, Some, None};
ghost use Rattle.wasmprinter_writers.specs.ColorCalls.{Coloring};

use crate::ColorSpec;
use std::io;
use std::io::Write;

/// A writer that can set the look of the text after a call. `sets_color` says which results such a call may have, and
/// the states of the writer after it.
pub trait WriteColor: Write {
    /// The results that a call for this look may have, and the states of the writer after it. `None` is the look of
    /// text without colors.
    ghost sets_color: { Coloring Self };

    /// Whether a chosen look has an effect. `supports_color` returns it.
    ghost is_colored: { Self → Bool };

    /// Whether a chosen look takes effect on a console immediately, so that it cannot be written as text.
    /// `is_synchronous` returns it.
    ghost is_immediate: { Self → Bool };

    /// Reports whether the writer shows colors.
    fn supports_color(&self) -> bool
        ensures { result ≡ is_colored self.now };

    /// Sets the look of the text after this call. It replaces the look that was set before.
    ///
    /// # Errors
    ///
    /// - The writer's error.
    fn set_color(&mut self, spec: &ColorSpec) -> io::Result<()>
        ensures { sets_color self.old (Some spec.now) result self.new };

    /// Ends all colors: the text after this call has none.
    ///
    /// # Errors
    ///
    /// - The writer's error.
    fn reset(&mut self) -> io::Result<()>
        ensures { sets_color self.old None result self.new };

    /// Reports whether colors take effect on a console immediately, so that they cannot be written as text.
    fn is_synchronous(&self) -> bool
        ensures { result ≡ is_immediate self.now };
}
