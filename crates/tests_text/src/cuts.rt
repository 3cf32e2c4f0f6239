//! Tests of how quoted strings are split into calls on a user-defined printer. The contracts fix only the text.
//! Here the calls for each character and each byte are typed. The expected calls of a string are those of its
//! characters, also up to a call that fails. The lengths are around the sizes of the runs that the library writes
//! to its own printers.

pub mod calls;
mod samples;

use calls::{Calls, Ending, expect_calls, shown_calls};
use samples::{
    ACUTE, GREATEST, Letter, QUOTE, SPACE, Sample, are_complete, letters, letters_but, mixed,
    repeated,
};
use std::alloc::{AllocError, Global};
use std::test::Fail;
use wasmprinter::text::{write_bytes, write_quoted};
use wasmprinter::{Config, Error, Print};
use wasmprinter_expecting::{expect_same, print_to};
use wasmprinter_samples::PREAMBLE;

/// The content of a quoted string.
#[derive(Clone, Copy)]
pub enum Input<'a> {
    Bytes(&'a [u8]),
    Text(&'a str),
}

/// Writes the input. It has no contract, so that callers need not prove anything about their own printer.
pub fn write_input<P: Print>(p: &mut P, input: Input) -> Result<(), Error> {
    match input {
        Input::Bytes(bytes) => write_bytes(p, bytes),
        Input::Text(text) => write_quoted(p, text),
    }
}

/// Reports whether writing the input makes exactly these calls.
fn makes(alloc: Global, input: Input, wanted: &[u8]) -> bool {
    let mut found = Calls::new(alloc, 0);
    Ending::of(write_input(&mut found, input)) == Ending::Whole && found.are(wanted)
}

/// Reports whether writing the input stops at the call with this number if that call fails, and all calls up to it
/// are the first of `wanted`.
fn stops_at(alloc: Global, input: Input, wanted: &[u8], refused: usize) -> bool {
    let mut found = Calls::new(alloc, refused);
    Ending::of(write_input(&mut found, input)) == Ending::Refused
        && found.is_complete()
        && found.count() == refused
        && wanted.starts_with(found.list())
}

/// Reports whether writing the input makes these calls, and stops at each of them if that call fails.
fn stops_at_each_call(alloc: Global, input: Input, wanted: &[u8]) -> bool {
    let mut whole = Calls::new(alloc, usize::MAX);
    if Ending::of(write_input(&mut whole, input)) != Ending::Whole || !whole.are(wanted) {
        return false;
    }
    for refused in 1..=whole.count() {
        if !stops_at(alloc, input, wanted, refused) {
            return false;
        }
    }
    true
}

/// Returns the calls for a quoted string, given those for its content.
fn in_quotes(alloc: Global, content: &[u8]) -> Result<Vec<u8>, AllocError> {
    let mut calls = Vec::from_slice(alloc, b"\xfe\"\xff")?;
    calls.extend_from_slice(content)?;
    calls.extend_from_slice(b"\"\xff\xfd")?;
    Ok(calls)
}

/// Reports whether the text is split into the expected calls, as a quoted string and as a byte string.
fn is_split(alloc: Global, sample: &Sample) -> Result<bool, AllocError> {
    let text = Input::Text(sample.text.as_str());
    let bytes = Input::Bytes(sample.text.as_bytes());
    Ok(
        makes(alloc, text, &in_quotes(alloc, &sample.quoted)?)
            && makes(alloc, bytes, &in_quotes(alloc, &sample.bytes)?),
    )
}

/// Reports whether the text is split into the expected calls, also up to any call that fails.
fn is_split_up_to_each_call(alloc: Global, sample: &Sample) -> Result<bool, AllocError> {
    let text = Input::Text(sample.text.as_str());
    let bytes = Input::Bytes(sample.text.as_bytes());
    Ok(
        stops_at_each_call(alloc, text, &in_quotes(alloc, &sample.quoted)?)
            && stops_at_each_call(alloc, bytes, &in_quotes(alloc, &sample.bytes)?),
    )
}

/// Lengths of texts, as ranges. A run has at most 256 characters in a quoted string, and covers at most 85 bytes
/// in a byte string.
const LENGTHS: &[(usize, usize)] = &[
    (0, 6),
    (80, 90),
    (168, 172),
    (250, 262),
    (505, 520),
    (764, 776),
    (1_018, 1_030),
];

/// Positions around the end of the first run, of a byte string and of a quoted string.
const THRESHOLDS: &[(usize, usize)] = &[(83, 87), (252, 258)];

/// Characters that are escaped, of one, two and four bytes.
const ESCAPED: &[Letter] = &[QUOTE, ACUTE, GREATEST];

/// Parameters of pseudorandom texts: the seed, and a mask. A character is not a plain letter if all bits of the
/// mask are 0 in its random number. So this holds of one character in 2, 8, 64 and 256.
const MIXES: &[(u32, u32)] = &[(1, 1), (7, 7), (11, 63), (23, 255)];

/// Reports whether plain letters are split into the expected calls if this character replaces the letter at any of
/// these positions.
fn is_split_at_places(
    alloc: Global,
    len: usize,
    (from, to): (usize, usize),
    letter: Letter,
) -> Result<bool, AllocError> {
    for place in from..=to {
        if place < len && !is_split(alloc, &letters_but(alloc, len, place, letter)?)? {
            return Ok(false);
        }
    }
    Ok(true)
}

/// Reports the same for the last five positions and those around each threshold.
fn is_split_with(alloc: Global, len: usize, letter: Letter) -> Result<bool, AllocError> {
    for threshold in THRESHOLDS {
        if !is_split_at_places(alloc, len, *threshold, letter)? {
            return Ok(false);
        }
    }
    is_split_at_places(alloc, len, (len.saturating_sub(5), len), letter)
}

/// Checks that letters of this length are split into the expected calls, also with one escaped character.
fn check_letters(alloc: Global, len: usize) -> Result<(), Fail> {
    if !is_split(alloc, &letters(alloc, len)?)? {
        return Err(("letters", len))?;
    }
    for letter in ESCAPED {
        if !is_split_with(alloc, len, *letter)? {
            return Err(("letters and an escape", len))?;
        }
    }
    Ok(())
}

#[test]
fn splits_letters_and_an_escape(rt: HostRuntime) -> Result<(), Fail> {
    assert!(rt; are_complete());
    for (from, to) in LENGTHS {
        for len in *from..=*to {
            check_letters(rt.alloc(), len)?;
        }
    }
    Ok(())
}

/// Checks that texts of this length with many escapes are split into the expected calls: escaped characters alone, and
/// pseudorandom texts.
fn check_escapes(alloc: Global, len: usize) -> Result<(), Fail> {
    for letter in ESCAPED {
        if !is_split(alloc, &repeated(alloc, len, *letter)?)? {
            return Err(("escapes alone", len))?;
        }
    }
    for mix in MIXES {
        if !is_split(alloc, &mixed(alloc, len, *mix)?)? {
            return Err(("a mixed text", len))?;
        }
    }
    Ok(())
}

#[test]
fn splits_escapes_and_mixed_texts(rt: HostRuntime) -> Result<(), Fail> {
    for (from, to) in LENGTHS {
        for len in *from..=*to {
            check_escapes(rt.alloc(), len)?;
        }
    }
    Ok(())
}

/// The calls for the characters below 128 in a quoted string, sixteen in a row, in the form of `Calls::shown`.
const CHARACTERS: &[&str] = &[
    r"\u{|0|}|\u{|1|}|\u{|2|}|\u{|3|}|\u{|4|}|\u{|5|}|\u{|6|}|\u{|7|}|\u{|8|}|\u{|9|}|\u{|a|}|\u{|b|}|\u{|c|}|\u{|d|}|\u{|e|}|\u{|f|}|",
    r"\u{|1|0|}|\u{|1|1|}|\u{|1|2|}|\u{|1|3|}|\u{|1|4|}|\u{|1|5|}|\u{|1|6|}|\u{|1|7|}|\u{|1|8|}|\u{|1|9|}|\u{|1|a|}|\u{|1|b|}|\u{|1|c|}|\u{|1|d|}|\u{|1|e|}|\u{|1|f|}|",
    r" |!|\u{|2|2|}|#|$|%|&|'|(|)|*|+|,|-|.|/|",
    "0|1|2|3|4|5|6|7|8|9|:|;|<|=|>|?|",
    "@|A|B|C|D|E|F|G|H|I|J|K|L|M|N|O|",
    r"P|Q|R|S|T|U|V|W|X|Y|Z|[|\u{|5|c|}|]|^|_|",
    "`|a|b|c|d|e|f|g|h|i|j|k|l|m|n|o|",
    r"p|q|r|s|t|u|v|w|x|y|z|{|||}|~|\u{|7|f|}|",
];

/// The calls for the bytes in a byte string, sixteen in a row.
const BYTES: &[&str] = &[
    r"\|0|0|\|0|1|\|0|2|\|0|3|\|0|4|\|0|5|\|0|6|\|0|7|\|0|8|\|0|9|\|0|a|\|0|b|\|0|c|\|0|d|\|0|e|\|0|f|",
    r"\|1|0|\|1|1|\|1|2|\|1|3|\|1|4|\|1|5|\|1|6|\|1|7|\|1|8|\|1|9|\|1|a|\|1|b|\|1|c|\|1|d|\|1|e|\|1|f|",
    r" |!|\|2|2|#|$|%|&|'|(|)|*|+|,|-|.|/|",
    "0|1|2|3|4|5|6|7|8|9|:|;|<|=|>|?|",
    "@|A|B|C|D|E|F|G|H|I|J|K|L|M|N|O|",
    r"P|Q|R|S|T|U|V|W|X|Y|Z|[|\|5|c|]|^|_|",
    "`|a|b|c|d|e|f|g|h|i|j|k|l|m|n|o|",
    r"p|q|r|s|t|u|v|w|x|y|z|{|||}|~|\|7|f|",
    r"\|8|0|\|8|1|\|8|2|\|8|3|\|8|4|\|8|5|\|8|6|\|8|7|\|8|8|\|8|9|\|8|a|\|8|b|\|8|c|\|8|d|\|8|e|\|8|f|",
    r"\|9|0|\|9|1|\|9|2|\|9|3|\|9|4|\|9|5|\|9|6|\|9|7|\|9|8|\|9|9|\|9|a|\|9|b|\|9|c|\|9|d|\|9|e|\|9|f|",
    r"\|a|0|\|a|1|\|a|2|\|a|3|\|a|4|\|a|5|\|a|6|\|a|7|\|a|8|\|a|9|\|a|a|\|a|b|\|a|c|\|a|d|\|a|e|\|a|f|",
    r"\|b|0|\|b|1|\|b|2|\|b|3|\|b|4|\|b|5|\|b|6|\|b|7|\|b|8|\|b|9|\|b|a|\|b|b|\|b|c|\|b|d|\|b|e|\|b|f|",
    r"\|c|0|\|c|1|\|c|2|\|c|3|\|c|4|\|c|5|\|c|6|\|c|7|\|c|8|\|c|9|\|c|a|\|c|b|\|c|c|\|c|d|\|c|e|\|c|f|",
    r"\|d|0|\|d|1|\|d|2|\|d|3|\|d|4|\|d|5|\|d|6|\|d|7|\|d|8|\|d|9|\|d|a|\|d|b|\|d|c|\|d|d|\|d|e|\|d|f|",
    r"\|e|0|\|e|1|\|e|2|\|e|3|\|e|4|\|e|5|\|e|6|\|e|7|\|e|8|\|e|9|\|e|a|\|e|b|\|e|c|\|e|d|\|e|e|\|e|f|",
    r"\|f|0|\|f|1|\|f|2|\|f|3|\|f|4|\|f|5|\|f|6|\|f|7|\|f|8|\|f|9|\|f|a|\|f|b|\|f|c|\|f|d|\|f|e|\|f|f|",
];

/// Checks that writing the input makes the calls of these rows, between quotes.
fn expect_rows(name: &'static str, alloc: Global, input: Input, rows: &[&str]) -> Result<(), Fail> {
    let mut calls = Calls::new(alloc, 0);
    write_input(&mut calls, input)?;
    let mut wanted = String::from_str(alloc, "{L}\"|")?;
    for row in rows {
        wanted.push_str(row)?;
    }
    wanted.push_str("\"|{R}")?;
    expect_same(name, calls.shown(alloc)?.as_str(), wanted.as_str())
}

#[test]
fn splits_each_character_below_128(rt: HostRuntime) -> Result<(), Fail> {
    let mut text = String::new(rt.alloc());
    for byte in 0..128 {
        text.push(char::from(byte))?;
    }
    let input = Input::Text(text.as_str());
    expect_rows("characters", rt.alloc(), input, CHARACTERS)
}

#[test]
fn splits_each_byte(rt: HostRuntime) -> Result<(), Fail> {
    let mut bytes = Vec::new(rt.alloc());
    for byte in 0..=u8::MAX {
        bytes.push(byte)?;
    }
    let input = Input::Bytes(bytes.as_slice());
    expect_rows("bytes", rt.alloc(), input, BYTES)
}

/// The number of a call in the middle of an escape that follows one character.
const INNER_CALL: usize = 5;

/// Contents with an escape, and all calls if that call is refused.
const INNER: &[(&str, Input, &[u8])] = &[
    (
        "a character",
        Input::Text("a\u{e9}"),
        b"\xfe\"\xffa\xff\\u{\xffe\xff",
    ),
    (
        "a byte",
        Input::Bytes(b"a\x1fb"),
        b"\xfe\"\xffa\xff\\\xff1\xff",
    ),
];

#[test]
fn stops_in_the_middle_of_an_escape(rt: HostRuntime) {
    for (name, input, wanted) in INNER {
        let mut calls = Calls::new(rt.alloc(), INNER_CALL);
        let ending = Ending::of(write_input(&mut calls, *input));
        assert!(rt;
            ending == Ending::Refused && calls.count() == INNER_CALL,
            "{name}"
        );
        assert!(rt; calls.are(*wanted), "{name}");
    }
}

/// Lengths of the texts for which each call is refused in turn.
const REFUSED_LENGTHS: &[usize] = &[0, 1, 3, 86, 254, 257];

/// The seeds and masks of these texts.
const REFUSED_MIXES: &[(u32, u32)] = &[(1, 1), (11, 63)];

/// The position of the escaped character in these letters. It is in the first run.
const REFUSED_PLACE: usize = 253;

/// Checks that writing texts of this length stops at each call that fails: letters and an escaped character, and
/// pseudorandom texts.
fn check_refused_length(alloc: Global, len: usize) -> Result<(), Fail> {
    let sample = letters_but(alloc, len, REFUSED_PLACE, QUOTE)?;
    if !is_split_up_to_each_call(alloc, &sample)? {
        return Err(("letters and an escape", len))?;
    }
    for mix in REFUSED_MIXES {
        if !is_split_up_to_each_call(alloc, &mixed(alloc, len, *mix)?)? {
            return Err(("a mixed text", len))?;
        }
    }
    Ok(())
}

#[test]
fn stops_at_each_call_of_a_quoted_string(rt: HostRuntime) -> Result<(), Fail> {
    for len in REFUSED_LENGTHS {
        check_refused_length(rt.alloc(), *len)?;
    }
    Ok(())
}

/// A type at 0xb, and imports of two functions with empty names at 0x11 and 0x15.
const TWO_IMPORTS: &[u8] = &[
    0x01, 0x04, 0x01, 0x60, 0x00, 0x00, // types
    0x02, 0x09, 0x02, 0x00, 0x00, 0x00, 0x00, 0x00, 0x00, 0x00, 0x00, // imports
];

/// The offset of the data of the name section that follows these sections.
const NAMES: usize = 0x21;

/// Appends a number below 2^14, encoded in two bytes.
fn push_number(wasm: &mut Vec<u8>, number: usize) -> Result<(), AllocError> {
    wasm.extend_from_slice(&[(number % 128) as u8 | 0x80, (number / 128 % 128) as u8])
}

/// Returns the length in bytes of a subsection that gives two functions a name of this length: a count, and for
/// each function an index, a length of two bytes and the name.
fn subsection_len(name_len: usize) -> usize {
    name_len
        .saturating_add(3)
        .saturating_mul(2)
        .saturating_add(1)
}

/// Returns the length in bytes of the data of that name section: an id, a size of two bytes, and the subsection.
fn names_len(name_len: usize) -> usize {
    subsection_len(name_len).saturating_add(3)
}

/// Returns a module that imports two functions, both with this name. The name must have fewer than 2^12 bytes.
fn with_name(alloc: Global, name: &str) -> Result<Vec<u8>, AllocError> {
    let mut wasm = Vec::from_slice(alloc, PREAMBLE)?;
    wasm.extend_from_slice(TWO_IMPORTS)?;
    wasm.push(0x00)?;
    push_number(&mut wasm, names_len(name.len()).saturating_add(5))?;
    wasm.extend_from_slice(b"\x04name\x01")?;
    push_number(&mut wasm, subsection_len(name.len()))?;
    wasm.push(2)?;
    for function in 0..2 {
        wasm.push(function)?;
        push_number(&mut wasm, name.len())?;
        wasm.extend_from_slice(name.as_bytes())?;
    }
    Ok(wasm)
}

/// The calls for that module up to and including the dollar sign of the first identifier.
const UP_TO_FIRST: &str = r#"[0x0](|{K}module|{R}
[0xb]  |(|{K}type| |{R}{N}(;|0|;)|{R} |(|{K}func|{R})|)|
[0x11]  |(|{K}import| |{R}{L}"|"|{R} |{L}"|"|{R} |(|{K}func| |{R}{N}$|"#;

/// The calls from there to the name in the second identifier. That name was already given to the first function.
const UP_TO_SECOND: &str = r##" |(;|0|;)|{R} |(|{K}type| |{R}{N}0|{R})|)|)|
[0x15]  |(|{K}import| |{R}{L}"|"|{R} |{L}"|"|{R} |(|{K}func| |{R}{N}$|"|#|f|u|n|c|1| |"##;

/// The calls from there to the name in the annotation.
const UP_TO_ANNOTATION: &str = r#""| |(|{K}@name "|{R}"#;

/// The calls from there to the place and the length of the name section.
const UP_TO_SECTION: &str = r#"")| |(;|1|;)|{R} |(|{K}type| |{R}{N}0|{R})|)|)|{? name "#;

/// Returns the calls for the module with this name, in the form of `Calls::shown`. An identifier without quotes is
/// one call.
fn named_calls(alloc: Global, sample: &Sample) -> Result<String, AllocError> {
    let quoted = shown_calls(alloc, &sample.quoted)?;
    let mut calls = String::from_str(alloc, UP_TO_FIRST)?;
    if sample.is_id {
        write!(calls, "{}|", sample.text)?;
    } else {
        write!(calls, "\"|{quoted}\"|")?;
    }
    calls.push_str(UP_TO_SECOND)?;
    calls.push_str(quoted.as_str())?;
    calls.push_str(UP_TO_ANNOTATION)?;
    calls.push_str(quoted.as_str())?;
    calls.push_str(UP_TO_SECTION)?;
    let len = names_len(sample.text.len());
    let end = NAMES.saturating_add(len);
    write!(calls, "{NAMES:#x} {len}}}\n[{end:#x}]|)|\n")?;
    Ok(calls)
}

/// Checks that a module of two functions with this name makes the expected calls.
fn expect_named(name: &'static str, alloc: Global, sample: &Sample) -> Result<(), Fail> {
    let wasm = with_name(alloc, sample.text.as_str())?;
    let typed = named_calls(alloc, sample)?;
    expect_calls(name, &Config::new(), alloc, &wasm, typed.as_str())
}

/// Lengths of names that are not empty, as ranges.
const NAME_LENGTHS: &[(usize, usize)] = &[
    (1, 6),
    (84, 87),
    (252, 259),
    (510, 514),
    (773, 780),
    (1_020, 1_030),
];

/// The seed and the mask of pseudorandom names.
const NAME_MIX: (u32, u32) = (7, 7);

/// Checks that identifiers and annotations of this length are split into the expected calls.
fn check_names(alloc: Global, len: usize) -> Result<(), Fail> {
    expect_named("letters", alloc, &letters(alloc, len)?)?;
    expect_named("a space", alloc, &letters_but(alloc, len, 0, SPACE)?)?;
    expect_named("a quote", alloc, &letters_but(alloc, len, len / 2, QUOTE)?)?;
    expect_named("escapes", alloc, &repeated(alloc, len, ACUTE)?)?;
    expect_named("a mixed text", alloc, &mixed(alloc, len, NAME_MIX)?)
}

#[test]
fn splits_identifiers_and_annotations(rt: HostRuntime) -> Result<(), Fail> {
    for (from, to) in NAME_LENGTHS {
        for len in *from..=*to {
            check_names(rt.alloc(), len)?;
        }
    }
    Ok(())
}

/// The calls for two functions whose name is empty.
const WITHOUT_A_NAME: &str = r##"[0x0](|{K}module|{R}
[0xb]  |(|{K}type| |{R}{N}(;|0|;)|{R} |(|{K}func|{R})|)|
[0x11]  |(|{K}import| |{R}{L}"|"|{R} |{L}"|"|{R} |(|{K}func| |{R}{N}$|"|#|f|u|n|c|0| |"| |(|{K}@name "|{R}")| |(;|0|;)|{R} |(|{K}type| |{R}{N}0|{R})|)|)|
[0x15]  |(|{K}import| |{R}{L}"|"|{R} |{L}"|"|{R} |(|{K}func| |{R}{N}$|"|#|f|u|n|c|1| |"| |(|{K}@name "|{R}")| |(;|1|;)|{R} |(|{K}type| |{R}{N}0|{R})|)|)|{? name 0x21 10}
[0x2b]|)|
"##;

#[test]
fn splits_the_annotation_of_an_empty_name(rt: HostRuntime) -> Result<(), Fail> {
    let wasm = with_name(rt.alloc(), "")?;
    expect_calls(
        "an empty name",
        &Config::new(),
        rt.alloc(),
        &wasm,
        WITHOUT_A_NAME,
    )
}

/// Reports whether printing a module stops at the call with this number if that call fails, and all calls up to it
/// are the first of `wanted`.
fn prints_up_to(alloc: Global, wasm: &[u8], wanted: &str, refused: usize) -> Result<bool, Fail> {
    let mut found = Calls::new(alloc, refused);
    let ending = Ending::of(print_to(&Config::new(), alloc, wasm, &mut found));
    Ok(
        ending == Ending::Refused
            && found.is_complete()
            && found.count() == refused
            && wanted.starts_with(found.shown(alloc)?.as_str()),
    )
}

/// Lengths of the names for which each call is refused in turn.
const REFUSED_NAME_LENGTHS: &[usize] = &[3, 86, 257];

/// Checks that printing a module with a pseudorandom name of this length stops at each call that fails.
fn check_refused_names(alloc: Global, len: usize) -> Result<(), Fail> {
    let sample = mixed(alloc, len, NAME_MIX)?;
    let wasm = with_name(alloc, sample.text.as_str())?;
    let wanted = named_calls(alloc, &sample)?;
    let mut whole = Calls::new(alloc, 0);
    print_to(&Config::new(), alloc, &wasm, &mut whole)?;
    for refused in 1..=whole.count() {
        if !prints_up_to(alloc, &wasm, wanted.as_str(), refused)? {
            return Err(("a mixed name", (len, refused)))?;
        }
    }
    Ok(())
}

#[test]
fn stops_at_each_call_of_identifiers(rt: HostRuntime) -> Result<(), Fail> {
    for len in REFUSED_NAME_LENGTHS {
        check_refused_names(rt.alloc(), *len)?;
    }
    Ok(())
}
