// The order sheets of many charts: for each, a line `# NAME` and its sheet. The files are in the folder NAME.

#![tactic(auto)]

ghost use Rattle.std.specs.Prelude.{◌+◌, ◌≤◌, length, IsTrue, nat_le};
ghost use Rattle.std.specs.List.{list_all};

use put_text::put_bytes;
use std::rt::Files;

// The longest name of a folder, and one of a file in it.
const NAME: usize = 48;

const FOLDERS: [&str; 34] = [
    "example",
    "example-fresh-pair",
    "empty-chart",
    "empty-lists",
    "chain-of-10",
    "chain-of-11",
    "zero-pair",
    "zero-cycles",
    "doubles",
    "ties",
    "equal-finds",
    "two-ends",
    "loops",
    "no-starts",
    "dear",
    "mixed",
    "shelf-full",
    "refused-orders",
    "last-order-open",
    "no-orders",
    "widest",
    "no-last-line-feed",
    "number-repeated",
    "motif-after-link",
    "link-to-next-motif",
    "picks-1000000",
    "short-cloth",
    "words-15998",
    "words-16004",
    "chart-65536",
    "chart-65537",
    "orders-65536",
    "orders-65537",
    "chart-folder",
];

fn main(rt: HostRuntime) {
    print_cases(&rt, &FOLDERS);
}

fn print_cases(rt: &(impl Files + Print + Eprint), folders: &[&str])
    requires { IsTrue (list_all (λ s. nat_le (length s.now) 30) folders.now) }
{
    for folder in folders {
        print_case(rt, folder);
    }
}

// What cannot be written is passed over, as in the sheet below it.
fn print_case(rt: &(impl Files + Print + Eprint), folder: &str)
    requires { length folder.now ≤ 30 }
{
    let _unwritten = println!(rt; "# {folder}");
    let mut chart = [0; NAME];
    let mut orders = [0; NAME];
    let chart = name_in(folder, "/chart.txt", &mut chart);
    let orders = name_in(folder, "/orders.txt", &mut orders);
    order_sheet::files::run_files(rt, chart, orders);
}

// The name of a file in a folder, which stands in the bytes lent.
fn name_in<'a>(folder: &str, file: &str, bytes: &'a mut [u8]) -> &'a [u8]
    requires { length folder.now + length file.now ≤ length bytes.old }
{
    let n = put_bytes(bytes, 0, folder.as_bytes());
    let m = put_bytes(bytes, n, file.as_bytes());
    &bytes[..m]
}
