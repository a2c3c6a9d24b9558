// The calls of a script on standard input: the stored one was asked of the Rust, and the stored answers are the Rust's. Made by
// `tests/compare ORACLE --sample 250 crates/replay_oracle`.

#![tactic(auto)]

fn main() {
    script::run();
}
