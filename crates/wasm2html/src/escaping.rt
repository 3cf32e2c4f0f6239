//! The encoding of text in the data of the page.
ghost use Rattle.std.specs.Prelude.{◌≡◌, ℕ, List, ◌++◌, OnOk};
ghost use Rattle.wasm2html.specs.Escaped.{escape_byte, escaped, unescaped, IsInert};

use std::alloc::AllocError;

/// The first character that is not a control character.
const SPACE: u8 = b' ';

/// The distance from a byte to the character that represents it after a percent sign.
const DISTANCE: u8 = 64;

/// Appends a byte of text, escaped if it is a control character or has a meaning in HTML or in the encoding.
#[tactic(auto, using(std::proofs::lemmas::Bool::Decides::nat_tests))]
fn push_escaped(out: &mut Vec<u8>, byte: u8) -> Result<(), AllocError>
    ensures { OnOk result (out.new.items ≡ out.old.items ++ escape_byte byte) }
{
    if byte < SPACE {
        return out.extend_from_slice(&[b'%', byte + DISTANCE]);
    }
    match byte {
        b'%' => out.extend_from_slice(b"%e"),
        b'&' => out.extend_from_slice(b"%f"),
        b'<' => out.extend_from_slice(b"%|"),
        _ => out.extend_from_slice(&[byte]),
    }
}

/// Appends the encoding of a text.
#[tactic(auto, using(std::proofs::lemmas::List::take_all))]
pub fn append_text(out: &mut Vec<u8>, text: &[u8]) -> Result<(), AllocError>
    ensures { OnOk result (out.new.items ≡ out.old.items ++ escaped text.now) }
{
    for byte in text {
        push_escaped(out, *byte)?;
    }
    Ok(())
}

/// A law: the encoding of a text has no control character, no `<` and no `&`. So it can't end its element of the page,
/// and can't start a line of data or change the style. The text can be read from its encoding.
pub fn encoding_is_safe()
    ensures inert { (text : List ℕ) → IsInert (escaped text) }
    ensures readable { (text : List ℕ) → unescaped (escaped text) ≡ text }
{}
