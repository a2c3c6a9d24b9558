// A chart drawn as a Graphviz text: chart.txt of the current folder, with the run of an order bold if the first argument is one.

#![tactic(auto)]

mod picture;

use order_sheet::MAX_BYTES;
use order_sheet::files::read_file;
use picture::{MAX_PICTURE, put_picture};
use std::env::{Env, FillError};

// One byte more than a file may have.
const SPACE: usize = MAX_BYTES + 1;

// The longest argument there is has fewer bytes.
const ARGUMENT: usize = 131072;

fn main(rt: HostRuntime) {
    let mut chart = [0u8; SPACE];
    let Some(chart) = read_file(&rt, b"chart.txt", &mut chart) else {
        return;
    };
    let mut argument = [0u8; ARGUMENT];
    // One that is too long is no order either: an empty one stands for it.
    let order = match rt.arg(1, &mut argument) {
        Ok(m) => Some(&argument[..m]),
        Err(FillError::TooLong) => Some(&argument[..0]),
        Err(FillError::NotPresent) => None,
    };
    let mut out = [0u8; MAX_PICTURE];
    let end = put_picture(chart, order, &mut out);
    io::write_all(1, &out[..end]);
}
