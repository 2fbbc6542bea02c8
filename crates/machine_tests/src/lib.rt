//! Tests of the machine's parts: words and characters, operations, registers, relocation, and cores. Sums, products and shifts are
//! cases of step_cases.
#![tactic(auto)]

#[cfg(test)]
mod banks;
#[cfg(test)]
mod bits;
#[cfg(test)]
mod characters;
#[cfg(test)]
mod cores;
#[cfg(test)]
mod operations;
#[cfg(test)]
mod registers;
#[cfg(test)]
mod relocation;
#[cfg(test)]
mod rows;
#[cfg(test)]
mod words;
