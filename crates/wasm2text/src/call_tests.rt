//! Runs that count the files that are read and created. Expected counts are typed by hand.
ghost use Rattle.std.specs.Prelude.{⊤};

use crate::help::HELP;
use crate::program::run;
use crate::system::{Inputs, Outputs};
use std::alloc::Global;
use std::io;
use std::io::ErrorKind;
use std::test::Fail;
use wasmprinter_samples::{IDENTITY, PREAMBLE};

/// A source that counts the reads. The file `bad` is malformed, and the file `none` can't be read. All other files and
/// standard input contain the empty module, except `identity`.
#[derive(Drop)]
struct CountedInputs {
    alloc: Global,
    files: u32,
    inputs: u32,
}

impl Inputs for CountedInputs {
    ghost reads = { λ _ _ _ _. ⊤ };

    ghost reads_input = { λ _ _ _. ⊤ };

    fn read_file(&mut self, path: &str) -> io::Result<Vec<u8>> {
        self.files = self.files.saturating_add(1);
        match path {
            "none" => Err(io::Error::from(ErrorKind::NotFound)),
            "bad" => Ok(Vec::new(self.alloc)),
            "identity" => Ok(IDENTITY.to_vec(self.alloc)?),
            _ => Ok(PREAMBLE.to_vec(self.alloc)?),
        }
    }

    fn read_input(&mut self) -> io::Result<Vec<u8>> {
        self.inputs = self.inputs.saturating_add(1);
        Ok(PREAMBLE.to_vec(self.alloc)?)
    }
}

/// A creator of files that counts its calls. The file `locked` can't be created.
#[derive(Drop)]
struct CountedOutputs {
    alloc: Global,
    files: u32,
    /// The text of the file that was closed last.
    text: Vec<u8>,
}

impl Outputs<Vec<u8>> for CountedOutputs {
    ghost creates = { λ _ _ _ _. ⊤ };

    ghost closes = { λ _ _ _. ⊤ };

    fn create(&mut self, path: &str) -> io::Result<Vec<u8>> {
        self.files = self.files.saturating_add(1);
        match path {
            "locked" => Err(io::Error::from(ErrorKind::PermissionDenied)),
            _ => Ok(Vec::new(self.alloc)),
        }
    }

    fn close(&mut self, file: Vec<u8>) {
        self.text = file;
    }
}

/// The text on standard output and the text of the created file, the status, and the numbers of files that were read, of reads of standard input, and of files that
/// were created.
#[derive(Drop)]
struct Counts {
    status: u8,
    out: Vec<u8>,
    file: Vec<u8>,
    calls: (u32, u32, u32),
}

/// Runs the program with these words.
fn run_counted(alloc: Global, words: &[&str]) -> Result<Counts, Fail> {
    let mut owned = Vec::new(alloc);
    for word in words {
        owned.push(String::from_str(alloc, word)?)?;
    }
    let mut inputs = CountedInputs {
        alloc,
        files: 0,
        inputs: 0,
    };
    let outputs = CountedOutputs {
        alloc,
        files: 0,
        text: Vec::new(alloc),
    };
    let (status, out, outputs) = run(
        &mut inputs,
        outputs,
        alloc,
        &owned,
        false,
        Vec::new(alloc),
        &mut Vec::new(alloc),
    );
    let calls = (inputs.files, inputs.inputs, outputs.files);
    Ok(Counts {
        status,
        out,
        file: outputs.text,
        calls,
    })
}

/// A run: the words, the exit status, and the numbers of calls.
type Row = (&'static [&'static str], u8, (u32, u32, u32));

/// Runs with files that are read, and with files that are created.
const CALLS: &[Row] = &[
    (&[], 0, (0, 1, 0)),
    (&["-"], 0, (0, 1, 0)),
    (&["a", "b"], 0, (2, 0, 0)),
    (&["a", "-", "none", "b"], 1, (3, 1, 0)),
    (&["--help", "-o", "x", "a"], 0, (0, 0, 0)),
    (&["-V", "-o", "x", "-"], 0, (0, 0, 0)),
    (&["a", "-o", "x", "--unknown"], 2, (0, 0, 0)),
    (&["-o", "x"], 0, (0, 1, 1)),
    (&["-o", "x", "a", "b"], 0, (2, 0, 1)),
    // No byte of a text is written.
    (&["-o", "x", "bad", "none"], 1, (2, 0, 0)),
    (&["-o", "x", "bad", "a", "bad", "b"], 1, (4, 0, 1)),
    // No file is read after the output could not be created.
    (&["-o", "locked", "bad", "a", "b"], 1, (2, 0, 1)),
];

/// Returns whether the run of a row ends with its status and its numbers of calls.
fn is_row(alloc: Global, row: &Row) -> Result<bool, Fail> {
    let (words, status, calls) = row;
    let counts = run_counted(alloc, words)?;
    Ok(counts.status == *status && counts.calls == *calls)
}

/// Returns the number of the first row whose run ends otherwise, or `None` if there is no such row.
fn first_other_row(alloc: Global, rows: &[Row]) -> Result<Option<usize>, Fail> {
    for (number, row) in rows.iter().enumerate() {
        if !is_row(alloc, row)? {
            return Ok(Some(number));
        }
    }
    Ok(None)
}

#[test]
fn reads_and_creates_each_file_once(rt: HostRuntime) -> Result<(), Fail> {
    let other = first_other_row(rt.alloc(), CALLS)?;
    assert!(rt; other == None, "row {other:?}");
    Ok(())
}

#[test]
fn writes_all_texts_to_the_file(rt: HostRuntime) -> Result<(), Fail> {
    let counts = run_counted(rt.alloc(), &["-o", "x", "bad", "a", "none", "-"])?;
    assert!(rt; counts.status == 1 && counts.out.is_empty());
    assert!(rt; counts.file.as_slice() == b"(module)\n(module)\n".as_slice());
    Ok(())
}

/// The number of words of a long command line.
const MANY: usize = 300;

#[test]
fn accepts_many_words(rt: HostRuntime) -> Result<(), Fail> {
    let alloc = rt.alloc();
    let mut words = Vec::new(alloc);
    words.resize(MANY, "a")?;
    let counts = run_counted(alloc, &words)?;
    assert!(rt; counts.status == 0 && counts.calls == (300, 0, 0));
    Ok(())
}

#[test]
fn indents_by_many_spaces(rt: HostRuntime) -> Result<(), Fail> {
    let alloc = rt.alloc();
    let counts = run_counted(alloc, &["--indent", "100", "identity"])?;
    let mut line = "\n".repeat(alloc, 1)?;
    line.push_str(" ".repeat(alloc, 100)?.as_str())?;
    line.push_str("(export \"f\" (func 0))\n")?;
    let text = String::from_utf8(counts.out)?;
    assert!(rt; counts.status == 0 && text.contains(line.as_str()));
    // No indent is made for the help.
    let counts = run_counted(alloc, &["--indent", "4294967295", "--help"])?;
    assert!(rt; counts.status == 0 && counts.out.as_slice() == HELP.as_bytes());
    Ok(())
}
