//! The options with which rows of tests print modules.

use wasmprinter::Config;

/// The options of a row.
#[derive(Clone, Copy)]
pub enum Options {
    Default,
    /// With places
    Places,
    /// With synthesized identifiers
    Synthesized,
    /// With folded operators
    Folded,
    /// With folded operators and places
    FoldedPlaces,
}

impl Options {
    /// Returns these options.
    pub fn config(self) -> Config {
        let mut config = Config::new();
        if matches!(self, Options::Default) {
            return config;
        }
        config
            .print_offsets(matches!(self, Options::Places | Options::FoldedPlaces))
            .name_unnamed(matches!(self, Options::Synthesized))
            .fold_instructions(matches!(self, Options::Folded | Options::FoldedPlaces));
        config
    }
}
