// Prints a counter notice: counter OFFICE CODE TABLE ENGLISH, with the files of the office's text
// table and of the English one. It prints the notice line, or the number of the question that
// refuses it as a line of two digits.
#![tactic(auto)]

use notice::{CounterNotice, LONGEST_LINE, Tables};
use std::alloc::AllocError;
use std::io::{Read, Write};
use std::process::ExitCode;
use std::{env, fs, io};
use thiserror::Error;

// One byte more than the largest table has, so that a larger file is still seen to be too large.
const TABLE_READ: u64 = 16_385;

// Why the program can't say anything about a notice.
#[derive(Debug, Drop, Error)]
enum CounterError {
    #[error("usage: counter OFFICE CODE TABLE ENGLISH")]
    Usage,
    #[error("the {what} must be a number from 0 to 255, not '{text}'")]
    NoNumber { what: &'static str, text: String },
    #[error("the table '{name}' can't be read: {cause}")]
    NoTable { name: String, cause: io::Error },
    #[error(transparent)]
    Memory(#[from] AllocError),
    #[error(transparent)]
    Io(#[from] io::Error),
}

// An argument that is a number from 0 to 255.
fn number(what: &'static str, text: String) -> Result<u8, CounterError> {
    text.parse::<u8>()
        .map_err(|_| CounterError::NoNumber { what, text })
}

// The start of a file, as far as a table can go.
fn start_of(rt: &HostRuntime, name: &str) -> io::Result<Vec<u8>> {
    let mut bytes = Vec::new(rt.alloc());
    fs::open(rt, name)?
        .take(TABLE_READ)
        .read_to_end(&mut bytes)?;
    Ok(bytes)
}

// The bytes of a table's file.
fn table(rt: &HostRuntime, name: String) -> Result<Vec<u8>, CounterError> {
    start_of(rt, name.as_str()).map_err(|cause| CounterError::NoTable { name, cause })
}

fn run(rt: &HostRuntime) -> Result<(), CounterError> {
    let mut args = env::args(rt)?.skip(1);
    let (Some(office), Some(code), Some(own), Some(english), None) = (
        args.next(),
        args.next(),
        args.next(),
        args.next(),
        args.next(),
    ) else {
        return Err(CounterError::Usage);
    };
    let office = number("office", office)?;
    let code = number("code", code)?;
    let own = table(rt, own)?;
    let english = table(rt, english)?;
    let tables = Tables {
        own: &own,
        english: &english,
    };
    let mut out = [0u8; LONGEST_LINE];
    let length = CounterNotice { office, code }.show_line(tables, &mut out);
    rt.stdout().write_all(&out[..length])?;
    Ok(())
}

fn main(rt: HostRuntime) -> ExitCode {
    match run(&rt) {
        Ok(()) => ExitCode::SUCCESS,
        Err(e) => {
            // where the message can't be written either, the status alone says that the run failed
            let _ = eprintln!(rt; "counter: {e}");
            ExitCode::FAILURE
        }
    }
}
