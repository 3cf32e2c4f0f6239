//! Finding the code section of a module (section 5.5 of the WebAssembly Core Specification, "Sections").
ghost use Rattle.std.specs.Prelude.{ℕ, ◌<◌, MatchOption, OnOk};
ghost use Rattle.wasmprinter_bytes.specs.Reads.{Decodes};
ghost use Rattle.wasm2text.specs.CodeSection.{any_section, IsCodeStart, CodeStartsOnce, FunctionsHaveCode};

use wasmprinter_bytes::Malformed;
use wasmprinter_bytes::cursor::Cursor;

/// The preamble of a module: the magic number and the version.
const PREAMBLE: [u8; 8] = [0x00, 0x61, 0x73, 0x6d, 0x01, 0x00, 0x00, 0x00];

/// The id of the code section.
pub const CODE: u8 = 10;

/// A section of any kind.
#[derive(Drop)]
struct Section<'a> {
    id: u8,
    /// The bytes after the size.
    contents: Cursor<'a>,
}

/// Returns the place of the first byte of the code section's contents, which follow the section's size. Returns `None` if
/// the module has no code section.
pub fn code_start(wasm: &[u8]) -> Option<u64>
    ensures { MatchOption result ((place : ℕ) → IsCodeStart wasm.now place → ⊥) (IsCodeStart wasm.now) }
{
    let sections = wasm.strip_prefix(PREAMBLE.as_slice())?;
    let mut cursor = Cursor::new(PREAMBLE.len() as u64, sections);
    while let Ok(section) = read_section(&mut cursor) {
        if section.id == CODE {
            return Some(section.contents.place());
        }
    }
    None
}

/// Reads a section of any kind. Reads nothing of its contents.
fn read_section<'a>(cursor: &mut Cursor<'a>) -> Result<Section<'a>, Malformed>
    ensures reads { Decodes (λ s. (s.id, record { place = s.contents.place; value = s.contents.bytes })) any_section.parse cursor.old result cursor.new }
    ensures advances { OnOk result (cursor.old.place < cursor.new.place) }
{
    let id = cursor.u8()?;
    let size = cursor.u32()?;
    let contents = cursor.part(size as usize)?;
    Ok(Section { id, contents })
}

/// States that bytes have at most one such place, and one if they encode a module with functions. Has no code: these are
/// laws over the definition of the place.
pub fn code_starts_once()
    ensures unique { CodeStartsOnce }
    ensures exists { FunctionsHaveCode }
{}
