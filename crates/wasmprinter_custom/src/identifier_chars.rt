//! Identifier characters, and names that consist of them (section 6.3 of the WebAssembly Core Specification,
//! "Identifiers").
ghost use Rattle.std.specs.Prelude.{◌≡◌};
ghost use Rattle.wasmprinter_spec.specs.Character.{class};
ghost use Rattle.wasmprinter_spec.specs.Quoted.{is_id_char, all_id_chars, is_id};

/// The bytes of identifier characters, each at its own index. All other entries are a full stop.
static IDENTIFIER_BYTES: [u8; 256] = *b"\
    ................................\
    .!.#$%&'..*+.-./0123456789:.<=>?\
    @ABCDEFGHIJKLMNOPQRSTUVWXYZ.\\.^_\
    `abcdefghijklmnopqrstuvwxyz.|.~.\
    ................................\
    ................................\
    ................................\
    ................................";

/// Reports whether a byte is an ASCII character that may occur in an identifier.
#[inline(always)]
fn is_id_char(byte: u8) -> bool
    ensures { result ≡ is_id_char (class byte) }
{
    IDENTIFIER_BYTES[usize::from(byte)] == byte
}

/// Reports whether all bytes are identifier characters.
fn all_id_chars(bytes: &[u8]) -> bool
    ensures { result ≡ all_id_chars bytes.now }
{
    for &byte in bytes {
        if !is_id_char(byte) {
            return false;
        }
    }
    true
}

/// Reports whether a name consists of one or more identifier characters. These are ASCII characters, so it is enough to
/// check its bytes.
pub fn is_id(name: &str) -> bool
    ensures { result ≡ is_id name.now }
{
    !name.is_empty() && all_id_chars(name.as_bytes())
}
