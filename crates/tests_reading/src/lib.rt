//! Tests of the crates below the program: of what no contract says, as that a call succeeds where there is
//! memory, and of what no text that the program reads can show. A test is a table of rows.
#![tactic(auto)]

#[cfg(test)]
mod copies;
#[cfg(test)]
mod definitions;
#[cfg(test)]
mod files;
#[cfg(test)]
mod integers_and_atoms;
#[cfg(test)]
mod numbers;
#[cfg(test)]
mod signs;
#[cfg(test)]
mod simple;
#[cfg(test)]
mod terms;
#[cfg(test)]
mod tokens;
