//! The calls of `tableau` on worked problems, as tests alone.
#![tactic(auto)]

#[cfg(test)]
mod form_check;
#[cfg(test)]
mod tableau_tests;
