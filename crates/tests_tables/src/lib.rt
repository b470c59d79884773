//! Codes by levels, and linked tables with their records and relations, called on worked rows, as tests alone.
#![tactic(auto)]

#[cfg(test)]
mod depth_tests;
#[cfg(test)]
mod level_code_tests;
#[cfg(test)]
mod linked_tables_tests;
#[cfg(test)]
mod relations_tests;
#[cfg(test)]
mod tabulate_tests;
