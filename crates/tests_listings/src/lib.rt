//! Listings of cells, of jobs and of their releases, as tests alone.
#![tactic(auto)]

#[cfg(test)]
mod asked_tests;
#[cfg(test)]
mod listed_tests;
