//! What reads codes and records, and the rules and costs of cells, called on worked rows, as tests alone.
#![tactic(auto)]

#[cfg(test)]
mod cost_rule_tests;
#[cfg(test)]
mod hierarchy_tests;
#[cfg(test)]
mod long_records_tests;
#[cfg(test)]
mod microdata_tests;
#[cfg(test)]
mod primary_rules_tests;
#[cfg(test)]
mod record_layouts;
#[cfg(test)]
mod sdc_base_tests;
