//! Files of the system that can't be read.

use std::fs;
use std::fs::Permissions;
use std::os::unix::fs::{PermissionsExt, symlink};
use std::path::Path;
use std::test::Fail;
use wasmprinter::{Error, print_file};
use wasmprinter_samples::{IDENTITY, IDENTITY_TEXT, expect_text};

/// Paths that can't be read, each with a name. Opening a directory succeeds, and reading it fails.
const UNREADABLE: &[(&str, &str)] = &[
    ("an empty path", ""),
    ("a missing name", "missing.wasm"),
    ("a missing folder", "missing/missing.wasm"),
    ("a name with a NUL byte", "missing\0.wasm"),
    ("a directory", "directory.wasm"),
    ("a path through a file", "file.wasm/identity.wasm"),
    ("a link to itself", "loop.wasm"),
];

/// Returns the text of a file. It has no contract, so that proofs of its callers need no facts about printing.
fn text_of_file(rt: &HostRuntime, path: &str) -> Result<String, Error> {
    print_file(rt, rt.alloc(), Path::new(path))
}

/// Returns the name of the first of these paths that is not refused as unreadable, or `None` if all are.
fn first_readable(rt: &HostRuntime, paths: &[(&'static str, &str)]) -> Option<&'static str> {
    for (name, path) in paths {
        if !matches!(text_of_file(rt, *path), Err(Error::Unreadable)) {
            return Some(*name);
        }
    }
    None
}

#[test]
fn refuses_paths_that_can_not_be_read(rt: HostRuntime) -> Result<(), Fail> {
    fs::create_dir(&rt, "directory.wasm")?;
    fs::write(&rt, "file.wasm", IDENTITY)?;
    symlink(&rt, "loop.wasm", "loop.wasm")?;
    let readable = first_readable(&rt, UNREADABLE);
    fs::remove_file(&rt, "loop.wasm")?;
    fs::remove_file(&rt, "file.wasm")?;
    fs::remove_dir(&rt, "directory.wasm")?;
    assert_eq!(rt; readable, None);
    Ok(())
}

/// Root can read every file. For root, the test shows that the file is printed.
#[test]
fn refuses_a_file_that_this_user_may_not_read(rt: HostRuntime) -> Result<(), Fail> {
    fs::write(&rt, "locked.wasm", IDENTITY)?;
    fs::set_permissions(&rt, "locked.wasm", Permissions::from_mode(0))?;
    let may_read = fs::read(&rt, "locked.wasm").is_ok();
    let printed = text_of_file(&rt, "locked.wasm");
    fs::remove_file(&rt, "locked.wasm")?;
    match printed {
        Ok(text) => {
            assert!(rt; may_read);
            expect_text(text.as_str(), IDENTITY_TEXT)?;
        }
        Err(error) => {
            assert!(rt; !may_read);
            assert!(rt; matches!(error, Error::Unreadable));
        }
    }
    Ok(())
}
