//! The options of printing.
ghost use Rattle.std.specs.Prelude.{◌≡◌};

use wasmprinter::Config;

/// The options of printing, and whether they synthesize identifiers, which [`Config`] does not return.
#[derive(Clone, Copy)]
pub struct TextOptions<'a> {
    /// The options.
    pub config: &'a Config,
    /// Whether identifiers are synthesized for items without a name.
    pub synthesizes: bool,
    ghost same: { config.now.synthesizes ≡ synthesizes },
}
