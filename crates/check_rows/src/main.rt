//! `check_rows FILE..` prints the module of each row of these files, and compares the text, or the error, with the
//! typed one. It prints each row that differs, and for each file how many rows it has and how many of them differ.
//! The files of the gate are in `data`; `data/README.md` describes their format.
#![tactic(auto)]

mod operators;
mod row;

use operators::row_of_operator;
use row::Row;
use std::alloc::{AllocError, Global};
use std::path::Path;
use std::{env, fs};
use wasmprinter::Error;

/// Returns the rows of a file, or the first line that can't be read or is a row of an operator with an opcode that is
/// not greater than that of the row before.
fn read_rows<'a>(
    alloc: Global,
    file: &'a str,
) -> Result<Result<Vec<Row<'a>>, &'a str>, AllocError> {
    let mut rows: Vec<Row<'a>> = Vec::new(alloc);
    for line in file.lines() {
        if let Some(title) = line.strip_prefix("row ") {
            rows.push(Row::new(alloc, title))?;
        } else if let Some(row) = row_of_operator(alloc, line)? {
            if !rows.last().is_none_or(|last| row.may_follow(last)) {
                return Ok(Err(line));
            }
            rows.push(row)?;
        } else if !line.is_empty() && !line.starts_with('#') {
            let is_read = match rows.last_mut() {
                Some(row) => row.add_line(alloc, line)?,
                None => false,
            };
            if !is_read {
                return Ok(Err(line));
            }
        }
    }
    Ok(Ok(rows))
}

/// Checks rows, and prints the title of each one that differs. Returns how many differ.
fn check_rows<R: Print>(rt: &R, alloc: Global, rows: &[Row<'_>]) -> Result<u64, Error> {
    let mut differing: u64 = 0;
    for row in rows {
        if !row.is_met(alloc)? {
            println!(rt; "differs: {}", row.title())?;
            differing = differing.saturating_add(1);
        }
    }
    Ok(differing)
}

fn main(rt: HostRuntime) -> Result<(), Error> {
    let alloc = rt.alloc();
    for name in env::args(&rt)?
        .skip(1)
        .collect::<Vec<String>>(alloc)?
        .iter()
    {
        let file = fs::read_to_string(&rt, Path::new(name.as_str()))?;
        match read_rows(alloc, file.as_str())? {
            Ok(rows) => {
                let differing = check_rows(&rt, alloc, &rows)?;
                println!(rt; "{name}: {} rows, {differing} differ", rows.len())?;
            }
            Err(line) => println!(rt; "{name}: not a line of a row, or not in order: {line}")?,
        }
    }
    Ok(())
}
