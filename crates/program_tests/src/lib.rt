//! Tests of the command lines of `btftool` over readers and writers that fail or are slow. tests/rows/btftool.rows
//! has the others.
#![tactic(auto)]

#[cfg(test)]
mod streams;
