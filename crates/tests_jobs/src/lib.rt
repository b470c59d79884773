//! What reads files, texts, metadata and jobs, called on worked rows, as tests alone.
#![tactic(auto)]

#[cfg(test)]
mod job_lang_tests;
#[cfg(test)]
mod office_io_tests;
#[cfg(test)]
mod plain_text_tests;
#[cfg(test)]
mod rda_meta_tests;
