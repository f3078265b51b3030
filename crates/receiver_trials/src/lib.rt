#![tactic(auto)]

// Trials of the receiver with real stages: full memory, bursts at every offset, and a list of calls of all kinds.
#[cfg(test)]
mod tests;
