//! Tests of a directory in memory: its operations, refusals, order and quota. A run's directories lie on its disk.
#![tactic(auto)]

#[cfg(test)]
mod directories;
