// The sheet of two files.
ghost use Rattle.std.specs.Prelude.{◌≤◌, length, IfSome, IfOk};

use crate::{MAX_BYTES, run};
use std::fs::File;
use std::io::{Error, ErrorKind, Read};
use std::rt::Files;
use std::str;

// One byte more than a file may have.
const SPACE: usize = MAX_BYTES + 1;

// Prints the sheet of the files with these names. Where one of them cannot be read, standard error says so, and nothing is printed.
pub fn run_files(rt: &(impl Files + Eprint), chart_name: &[u8], orders_name: &[u8]) {
    let mut chart = [0u8; SPACE];
    let Some(chart) = read_file(rt, chart_name, &mut chart) else {
        return;
    };
    let mut orders = [0u8; SPACE];
    let Some(orders) = read_file(rt, orders_name, &mut orders) else {
        return;
    };
    run(chart, orders);
}

// A file's first bytes, as many as there is space for, or none where it cannot be read.
pub fn read_file<'a>(
    rt: &(impl Files + Eprint),
    name: &[u8],
    space: &'a mut [u8],
) -> Option<&'a [u8]>
    ensures { IfSome result (λ s. length s.now ≤ length space.old) }
{
    read_named(rt, name, space)
        .inspect_err(|error| fail(rt, name, error))
        .ok()
}

// A name that is no text names no file that can be opened.
fn read_named<'a>(rt: &impl Files, name: &[u8], space: &'a mut [u8]) -> std::io::Result<&'a [u8]>
    ensures { IfOk result (λ s. length s.now ≤ length space.old) }
{
    let Ok(path) = str::from_utf8(name) else {
        return Err(Error::from(ErrorKind::InvalidFilename));
    };
    let mut file = File::open(rt, path)?;
    read_all(&mut file, space)
}

// Reads until the space is full, the file ends or a read fails.
fn read_all<'a>(file: &mut impl Read, space: &'a mut [u8]) -> std::io::Result<&'a [u8]>
    ensures { IfOk result (λ s. length s.now ≤ length space.old) }
{
    let mut at = 0;
    // By as many bytes as each read gives.
    while at < space.len() {
        let n = file.read(&mut space[at..])?;
        if n == 0 {
            break;
        }
        at += n;
    }
    Ok(&space[..at])
}

// Writes a line to standard error: the name, a colon and what failed.
fn fail(rt: &impl Eprint, name: &[u8], error: &Error) {
    io::write_all(2, name);
    let _ = eprintln!(rt; ": {error}");
}
