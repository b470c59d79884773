//! Whole runs: each command once, failing shelves and trays, files that come in pieces, and the lines of reports, as tests
//! alone.
#![tactic(auto)]

#[cfg(test)]
mod depth_tests;
#[cfg(test)]
mod fault_tests;
#[cfg(test)]
mod guarded_tests;
#[cfg(test)]
mod jobs;
#[cfg(test)]
mod limit_tests;
#[cfg(test)]
mod migration_tests;
#[cfg(test)]
mod refusal_tests;
#[cfg(test)]
mod released_tests;
#[cfg(test)]
mod report_tests;
#[cfg(test)]
mod run_tests;
#[cfg(test)]
mod runs;
