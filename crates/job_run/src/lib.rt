//! The top call of argus: `running` does what the words ask for, by a module for each command, and `printing` says what
//! came of it.
//!
//! ```text
//! running                        run: the command that the words ask for
//! ├─ commands                    the words
//! ├─ release                     run JOB: cells are protected, guarded or rounded
//! │  ├─ guarded, rounded         guarded against contributors; rounded
//! │  ├─ release_texts            the certificate and the tables, as files to be put
//! │  ├─ guarded_texts            with the contributors' file between them
//! │  └─ numbers                  the numbers of a release
//! ├─ put, puts                   files to be put, and putting them in their order
//! ├─ check_run                   check JOB
//! ├─ interval_run, audit_run     intervals JOB OUT, audit JOB OUT
//! ├─ migration                   migrate OLD NEW
//! └─ demo                        demo SEED RECORDS: a survey made in memory, and its run
//!
//! report, reporting              what is answered; faults of questions and searches as answers
//! printing                       an answer as text, with
//! └─ check_texts, guard_texts    the faults of releases and of contributors' files
//!
//! laws                           what holds of releases whatever made them
//! ```
#![tactic(auto)]

mod audit_run;
mod check_run;
mod check_texts;
mod commands;
mod demo;
mod guard_texts;
mod guarded;
mod guarded_texts;
mod interval_run;
mod laws;
mod migration;
mod numbers;
mod printing;
mod put;
mod puts;
mod release;
mod release_texts;
mod report;
mod reporting;
mod rounded;
mod running;

pub use job_inputs::{Fault, FileRef};
pub use laws::{rounded_tables_add_up, second_runs_complete};
pub use printing::report_text;
pub use report::{DemoSummary, Report, Stuck, Summary};
pub use running::run;
