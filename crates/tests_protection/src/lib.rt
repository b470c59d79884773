//! Cubes, plans, repairs and protections of cells, called on worked rows, as tests alone.
#![tactic(auto)]

#[cfg(test)]
mod books;
#[cfg(test)]
mod cell_protection_tests;
#[cfg(test)]
mod costs;
#[cfg(test)]
mod hypercube_tests;
#[cfg(test)]
mod lines;
#[cfg(test)]
mod modular_plan_tests;
#[cfg(test)]
mod repair_tests;
