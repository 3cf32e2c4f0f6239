//! Options as data: calls of the setters of `Config`.

use std::alloc::{AllocError, Global};
use wasmprinter::Config;

/// A call of a setter with its argument.
pub enum Setter {
    Offsets(bool),
    Skeleton(bool),
    NameUnnamed(bool),
    Indent(&'static str),
}

/// Returns the options after these calls, in order.
pub fn config_of(alloc: Global, setters: &[Setter]) -> Result<Config, AllocError> {
    let mut config = Config::new();
    for setter in setters {
        match setter {
            Setter::Offsets(on) => {
                config.print_offsets(*on);
            }
            Setter::Skeleton(on) => {
                config.print_skeleton(*on);
            }
            Setter::NameUnnamed(on) => {
                config.name_unnamed(*on);
            }
            Setter::Indent(text) => {
                config.indent_text(String::from_str(alloc, text)?);
            }
        }
    }
    Ok(config)
}
