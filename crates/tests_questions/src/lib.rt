//! Worlds, questions, kept tables, intervals and roundings of small systems, called on worked rows, as tests alone.
#![tactic(auto)]

#[cfg(test)]
mod cases;
#[cfg(test)]
mod cell_intervals_tests;
#[cfg(test)]
mod end_search_tests;
#[cfg(test)]
mod flow_worlds_tests;
#[cfg(test)]
mod interval_audit_tests;
#[cfg(test)]
mod kept_questions_tests;
#[cfg(test)]
mod rounding_audit_tests;
#[cfg(test)]
mod rounding_tests;
#[cfg(test)]
mod signed_system_tests;
#[cfg(test)]
mod worlds_tests;
