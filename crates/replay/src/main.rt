// The calls of a script on standard input.

#![tactic(auto)]

fn main() {
    script::run();
}
