//! Tests of conversions to errors. The texts of errors are tested in `tests_api/src/errors.rt`.

use std::alloc::AllocError;
use std::io;
use std::test::Fail;
use wasmprinter_bytes::{Error, Malformed};

#[test]
fn other_errors_become_one_of_these(rt: HostRuntime) -> Result<(), Fail> {
    let malformed = Error::from(Malformed { place: 7 });
    assert!(rt; matches!(malformed, Error::Malformed { place: 7 }));
    assert!(rt; matches!(Error::from(io::Error::other("full")), Error::Printer(_)));
    assert!(rt; matches!(Error::from(AllocError), Error::Memory));
    Ok(())
}
