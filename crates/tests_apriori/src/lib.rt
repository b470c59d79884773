//! What is said of cells before a job, called on worked rows, as tests alone.
#![tactic(auto)]

#[cfg(test)]
mod apriori_tests;
#[cfg(test)]
mod settled_tests;
