//! Laws of tokens: quoted strings and the text of floats read back. The proofs, in `proofs/Tokens`, show what the text
//! of any list of pieces lexes to. The proofs of the reading law cite these lemmas.

ghost use Rattle.wasmprinter_spec.specs.Laws.{QuotedTextReads, QuotedBytesRead, FloatTextReads, FloatsAreExact};

/// The quoted text of any string is one token: that string (section 6.3 of the standard, "Strings").
pub fn quoted_text_reads()
    ensures { QuotedTextReads }
{}

/// The quoted text of any bytes is one token: the string of these bytes.
pub fn quoted_bytes_read()
    ensures { QuotedBytesRead }
{}

/// The text of each bit pattern of a float of 32 or 64 bits is one word that reads as exactly these bits, also for
/// negative zero and for each NaN (section 6.3 of the standard, "Floating-Point").
pub fn float_text_reads()
    ensures { FloatTextReads }
{}

/// A hexadecimal number without a sign reads as the bits of the finite float that is equal to it. If no finite float
/// is, it does not read. The law is of the reader's step from the value of the number to the bits. It holds for floats
/// with 2 to 16 bits of exponent and 1 to 64 bits of fraction.
pub fn floats_are_exact()
    ensures { FloatsAreExact }
{}
