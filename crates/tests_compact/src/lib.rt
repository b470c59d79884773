//! The compact search over small systems, as tests alone.
#![tactic(auto)]

#[cfg(test)]
mod compact_search_tests;
#[cfg(test)]
mod tables;
