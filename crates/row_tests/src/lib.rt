//! Cases from outside, as tables, for the crates below: one module of tests for each of them.
#![tactic(auto)]

#[cfg(test)]
mod caches;
#[cfg(test)]
mod clocks;
#[cfg(test)]
mod draws;
#[cfg(test)]
mod effects;
#[cfg(test)]
mod encodings;
#[cfg(test)]
mod files;
#[cfg(test)]
mod futexes;
#[cfg(test)]
mod homes;
#[cfg(test)]
mod locals;
#[cfg(test)]
mod machines;
#[cfg(test)]
mod meshes;
#[cfg(test)]
mod messages;
#[cfg(test)]
mod plain_caches;
#[cfg(test)]
mod plain_sets;
#[cfg(test)]
mod settings;
#[cfg(test)]
mod threads;
#[cfg(test)]
mod words;
