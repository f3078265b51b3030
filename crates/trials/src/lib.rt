#![tactic(auto)]

// Trials of stages together: piles of piles, one of two stages, and bursts through them.
#[cfg(test)]
mod tests;
#[cfg(test)]
mod turned;
