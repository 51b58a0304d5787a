//! Tests of what no transcript of a command shows and no clause says: adapters over a system that is made up, files and output
//! in memory, runs of which a put fails within a line, and words with spaces.
#![tactic(auto)]

#[cfg(test)]
mod edges;
#[cfg(test)]
mod failures;
#[cfg(test)]
mod memory;
#[cfg(test)]
mod words;
