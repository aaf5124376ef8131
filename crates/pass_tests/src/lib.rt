// Both component passes on one graph. `run_both` gives what they list, and its clause says that it is the same. The
// tests run both on worked and drawn graphs, since a pass that always answers want of memory would meet its contract
// too.
#![tactic(auto)]

mod both;
#[cfg(test)]
mod tests;

pub use both::run_both;
