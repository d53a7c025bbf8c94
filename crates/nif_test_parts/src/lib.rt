//! Tests alone, of what no command shows: the tree of a block, what strong references lead to, a region of many runs,
//! files and bytes in memory, the real shelf, expressions with bindings and as code words, and a script with each form
//! of line.
#![tactic(auto)]

#[cfg(test)]
mod bindings;
#[cfg(test)]
mod blocks;
#[cfg(test)]
mod codes;
#[cfg(test)]
mod graphs;
#[cfg(test)]
mod memory;
#[cfg(test)]
mod regions;
#[cfg(test)]
mod scripts;
#[cfg(test)]
mod system;
