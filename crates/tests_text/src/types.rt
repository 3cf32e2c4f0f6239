//! The text of many types.

use std::alloc::{AllocError, Global};
use std::test::Fail;
use wasmprinter_expecting::expect_printed;
use wasmprinter_samples::PREAMBLE;
use wasmprinter_samples::modules_and_texts_from_parts::Part::{Bytes, Copies};
use wasmprinter_samples::modules_and_texts_from_parts::{TextPart, build, text_of_parts};

/// Returns a module with a thousand types of functions without parameters and results.
fn thousand_types(alloc: Global) -> Result<Vec<u8>, AllocError> {
    build(
        alloc,
        &[
            Bytes(PREAMBLE),
            // 3,002 bytes, two of which are the count
            Bytes(&[0x01, 0xba, 0x17, 0xe8, 0x07]),
            Copies(1000, &[0x60, 0x00, 0x00]),
        ],
    )
}

#[test]
fn prints_a_thousand_types(rt: HostRuntime) -> Result<(), Fail> {
    let wasm = thousand_types(rt.alloc())?;
    let parts = &[
        TextPart::Text("(module\n"),
        TextPart::Numbered(1000, "  (type (;", ";) (func))\n"),
        TextPart::Text(")\n"),
    ];
    let typed = text_of_parts(rt.alloc(), parts)?;
    expect_printed("a thousand types", rt.alloc(), &wasm, typed.as_str())
}
