//! Debug information of a module: custom sections of data, and the `producers` section.

use crate::draws::Draws;
use crate::encoder::Encoder;
use crate::names::{Style, function_name};
use std::alloc::{AllocError, Global};

/// Appends small numbers and zeros, as in tables of debug information.
pub fn table(draws: &mut Draws, len: usize, data: &mut Encoder) -> Result<(), AllocError> {
    for _ in 0..len / 8 {
        let word = draws.number();
        let kept = match word & 3 {
            0 => word,
            1 => word & 0x0000_00ff_0000_ffff,
            2 => word & 0x7f03_0000_00ff_000f,
            _ => word & 0x0000_0000_0000_ffff,
        };
        data.all(&kept.to_le_bytes())?;
    }
    Ok(())
}

/// Appends texts, each followed by a zero byte.
pub fn texts(draws: &mut Draws, count: u32, data: &mut Encoder) -> Result<(), AllocError> {
    for number in 0..count {
        let style = if number % 4 == 0 {
            Style::Readable
        } else {
            Style::Mangled
        };
        function_name(draws, style, number, data)?;
        data.byte(0)?;
    }
    Ok(())
}

/// Appends the `producers` section.
fn producers(alloc: Global, module: &mut Encoder) -> Result<(), AllocError> {
    let mut data = Encoder::new(alloc);
    data.byte(1)?;
    data.sized(b"processed-by")?;
    data.byte(1)?;
    data.sized(b"rustc")?;
    data.sized(b"1.95.0 (59807616e 2026-04-14)")?;
    module.custom(alloc, b"producers", data.bytes())
}

/// Appends the custom sections at the end of a module, with debug information or without.
pub fn customs(
    alloc: Global,
    draws: &mut Draws,
    functions: u32,
    full: bool,
    module: &mut Encoder,
) -> Result<(), AllocError> {
    if full {
        let mut data = Encoder::new(alloc);
        table(draws, (functions as usize).saturating_mul(500), &mut data)?;
        module.custom(alloc, b".debug_info", data.bytes())?;
        data.clear();
        table(draws, (functions as usize).saturating_mul(200), &mut data)?;
        module.custom(alloc, b".debug_line", data.bytes())?;
        data.clear();
        texts(draws, functions, &mut data)?;
        module.custom(alloc, b".debug_str", data.bytes())?;
    }
    producers(alloc, module)?;
    module.custom(
        alloc,
        b"target_features",
        b"\x02+\x0bbulk-memory+\x08sign-ext",
    )
}
