// 01's order sheet: the chart and the orders of the current folder.

#![tactic(auto)]

fn main(rt: HostRuntime) {
    order_sheet::files::run_files(&rt, b"chart.txt", b"orders.txt");
}
