//! Reports which of the modules in files gives what another one asks for.
#![tactic(auto)]

use std::fmt::Display;
use std::io::{self, Read};
use std::process::ExitCode;
use std::rt::{Env, Files};
use std::{env, fs};
use thiserror::Error;
use wasmi_link_lib::{File, LinkError, link};
use wasmi_module::DecodeError;

// How many bytes one read asks for, and the most reads that a file may take.
const READ_LEN: usize = 65536;

const MOST_READS: u64 = 1 << 40;

// Why there is no report.
#[derive(Debug, Drop, Error)]
enum Failure<'a> {
    #[error("usage: wasmi_link FILE..")]
    NoFiles,
    #[error("out of memory")]
    NoMemory,
    #[error("{0}: {1}")]
    Unread(&'a str, io::Error),
    #[error("{0}: {1}")]
    NotAModule(&'a str, DecodeError),
    #[error("{0}")]
    Unlinked(LinkError),
    #[error("standard output: {0}")]
    Unwritten(io::Error),
}

fn main(rt: HostRuntime) -> ExitCode {
    match arguments(&rt) {
        Ok(paths) => match read_all(&rt, &paths) {
            Ok(contents) => match run(&rt, &paths, &contents) {
                Ok(status) => ExitCode::from(status),
                Err(failure) => refuse(&rt, failure),
            },
            Err(failure) => refuse(&rt, failure),
        },
        Err(error) => refuse(&rt, error),
    }
}

// Says why there is no report.
fn refuse(rt: &impl Eprint, why: impl Display + Drop) -> ExitCode {
    // Where this can't be written either, the status still tells.
    let _ = eprintln!(rt; "{why}");
    ExitCode::from(2)
}

// The paths that the program is given.
fn arguments(rt: &(impl Env + AllocGlobal)) -> io::Result<Vec<String>> {
    let mut paths = Vec::new(rt.alloc());
    for path in env::args(rt)?.skip(1) {
        if paths.push(path).is_err() {
            return Err(io::Error::from(io::ErrorKind::OutOfMemory));
        }
    }
    Ok(paths)
}

// The bytes of each file.
fn read_all<'a>(
    rt: &(impl Files + AllocGlobal),
    paths: &'a [String],
) -> Result<Vec<Vec<u8>>, Failure<'a>> {
    if paths.is_empty() {
        return Err(Failure::NoFiles);
    }
    let mut contents = Vec::with_capacity(rt.alloc(), paths.len()).map_err(|_| Failure::NoMemory)?;
    let mut buffer = [0u8; READ_LEN];
    for path in paths {
        match read(rt, path.as_str(), &mut buffer) {
            Ok(bytes) => contents.push(bytes).map_err(|_| Failure::NoMemory)?,
            Err(error) => return Err(Failure::Unread(path.as_str(), error)),
        }
    }
    Ok(contents)
}

// The bytes of a file. A buffer that serves for all files isn't cleared for each.
fn read(
    rt: &(impl Files + AllocGlobal),
    path: &str,
    buffer: &mut [u8; READ_LEN],
) -> io::Result<Vec<u8>> {
    let mut file = fs::open(rt, path)?;
    let mut bytes = Vec::new(rt.alloc());
    for _ in 0..MOST_READS {
        let count = file.read(buffer)?;
        if count == 0 {
            return Ok(bytes);
        }
        bytes.extend_from_slice(&buffer[..count])?;
    }
    Err(io::Error::from(io::ErrorKind::InvalidData))
}

// Prints the report on files, and returns the status.
fn run<'a>(
    rt: &(impl Print + AllocGlobal),
    paths: &'a [String],
    contents: &'a [Vec<u8>],
) -> Result<u8, Failure<'a>> {
    let mut files = Vec::with_capacity(rt.alloc(), paths.len()).map_err(|_| Failure::NoMemory)?;
    for (path, bytes) in paths.iter().zip(contents) {
        let file = File {
            path: path.as_str(),
            bytes: bytes.as_slice(),
        };
        files.push(file).map_err(|_| Failure::NoMemory)?;
    }
    match link(rt.alloc(), &files) {
        Ok(outcome) => match rt.write_all(outcome.text.as_bytes()) {
            Ok(()) => Ok(outcome.status),
            Err(error) => Err(Failure::Unwritten(error)),
        },
        Err(error) => Err(with_path(paths, error)),
    }
}

// Why there is no report, with the path of the file.
fn with_path(paths: &[String], error: LinkError) -> Failure<'_> {
    if let LinkError::NotAModule(place, why) = error
        && let Some(path) = paths.get(place)
    {
        return Failure::NotAModule(path.as_str(), why);
    }
    Failure::Unlinked(error)
}
