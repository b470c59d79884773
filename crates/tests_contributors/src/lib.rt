//! Contributors as attackers, called on worked rows, as tests alone.
#![tactic(auto)]

#[cfg(test)]
mod file_tests;
#[cfg(test)]
mod guard_tests;
#[cfg(test)]
mod soles_tests;
