//! Tables and certificates, written, read back and judged, called on worked rows, as tests alone.
#![tactic(auto)]

#[cfg(test)]
mod cert_check_tests;
#[cfg(test)]
mod certificate_tests;
#[cfg(test)]
mod release_reading_tests;
#[cfg(test)]
mod release_writer_tests;
