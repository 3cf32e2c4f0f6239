//! Tests of the names that a decoded module gives out.

use std::test::Fail;
use wasmprinter::wasm::{Names, Space, decode};
use wasmprinter_samples::IDENTITY;
use wasmprinter_samples::modules_and_texts_from_parts::Part::{Bytes, Custom};
use wasmprinter_samples::modules_and_texts_from_parts::{Part, build};

/// `IDENTITY`, with the name `x` for its parameter.
const NAMED_PARAMETER: &[Part<'static>] = &[
    Bytes(IDENTITY),
    Custom("name", b"\x02\x06\x01\x00\x01\x00\x01x"),
];

/// Reports whether names call local 0 of function 0 `x`, and name neither the function nor the module.
fn call_a_local_alone(names: &Names) -> bool {
    names.identifier(Space::Local, 0, 0) == Some("x")
        && names.identifier(Space::Func, 0, 0) == None
        && names.module() == None
}

#[test]
fn gives_out_names(rt: HostRuntime) -> Result<(), Fail> {
    let wasm = build(rt.alloc(), NAMED_PARAMETER)?;
    let module = decode(rt.alloc(), &wasm)?;
    let names = module.names(rt.alloc())?;
    assert!(rt; call_a_local_alone(&names));
    Ok(())
}
