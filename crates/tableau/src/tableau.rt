ghost use Rattle.std.specs.Prelude.{◌≡◌, ◌≢◌, ◌↔◌, ℕ, ◌+◌, ◌-◌, ◌^◌, ◌<◌, length, pos, ◌≤ℤ◌, Ok, IsTrue, IfOk};
ghost use Rattle.tableau.specs.TableLaws.{CannotImprove};
ghost use Rattle.tableau.specs.Problems.{first_table, variable_count, number_for, AreDuals};
ghost use Rattle.tableau.specs.ProblemForm.{IsWellFormed};
ghost use Rattle.tableau.specs.Steps.{IsStepOf, CanImprove, IsReached, IsBlocked};
ghost use Rattle.tableau.specs.Widths.{IsWideStep};
ghost use Rattle.tableau.specs.Readings.{values_of, slacks_of};
ghost use Rattle.tableau.specs.Solutions.{AreFeasible};
ghost use Rattle.tableau.specs.Tableaus.{tableau_walk, IsTableauWalk};

use crate::entering::entering_place;
use crate::first_table::make_first_table;
use crate::problem::Problem;
use crate::reads::{read_slacks, read_values};
use crate::sparse_table::SparseTable;
use crate::step::Step;
use crate::stepping::{is_reached, make_step};
use sdc_base::Memory;
use std::alloc::Global;
use std::marker::Model;

/// A problem with a table of it, which was made from the first one by so many steps.
///
/// Contracts see it as the walk: the problem, the number of steps and the table.
#[derive(Drop)]
pub struct Tableau {
    problem: Problem,
    improved: u64,
    table: SparseTable,
    values: Vec<i128>,
    slacks: Vec<i128>,
    alloc: Global,
}

impl Model for Tableau {
    ghost use Rattle.tableau.specs.Tableaus.{TableauWalk, tableau_walk, IsTableau};
    ghost use Rattle.tableau.specs.SparseTables.{table_of, IsSoundTable};

    ghost Value = { TableauWalk };

    ghost view = { λ t. tableau_walk t.problem t.improved (table_of t.table) };

    ghost invariant = { λ t. IsSoundTable t.table × IsTableau (tableau_walk t.problem t.improved (table_of t.table))
        t.values.items t.slacks.items };
}

impl Tableau {
    /// The walk of no step on a problem: all columns are 0, and the slacks are the bounds.
    ///
    /// The problem is well formed: entries name columns in ascending order with numbers above -2^127, bounds and target
    /// are 0 or more, and columns and rows, the target's row among them, are fewer than 2^32 - 1. It takes memory for
    /// the entries that aren't 0 and for each row and column, and goes once through them. The one refusal is want of
    /// memory. The walk is that of the simplex method over one denominator (integer pivoting).
    pub fn start(alloc: Global, problem: Problem) -> Result<Tableau, Memory>
        requires { IsWellFormed problem }
        ensures { IfOk result (λ tableau. tableau ≡ tableau_walk problem 0 (first_table problem)) }
    {
        let table = make_first_table(alloc, &problem)?;
        let mut values = vec![in alloc; 0i128; problem.columns as usize]?;
        let mut slacks = vec![in alloc; 0i128; problem.rows.as_slice().len() + 1]?;
        read_values(values.as_mut_slice(), &problem, &table);
        read_slacks(slacks.as_mut_slice(), &problem, &table);
        Ok(Tableau {
            problem,
            improved: 0,
            table,
            values,
            slacks,
            alloc,
        })
    }

    /// How many steps were made, fewer than 2 to the number of columns and slacks. No cost.
    pub fn improved(&self) -> u64
        ensures improved { result ≡ self.now.improved }
        ensures walk { IsTableauWalk self.now }
        ensures short { result < 2 ^ variable_count self.now.problem }
    {
        let _ = &self.table;
        self.improved
    }

    /// The den of the table, 1 or more, over which its values and numbers stand. No cost.
    pub fn den(&self) -> i128
        ensures den { result ≡ self.now.table.den }
        ensures above { pos 1 ≤ℤ result }
    {
        self.table.den
    }

    /// For each column its value over the den, 0 where it isn't a member: amounts that the problem allows. No cost.
    pub fn values(&self) -> &[i128]
        ensures values { result.now ≡ values_of self.now.problem self.now.table }
        ensures feasible { AreFeasible self.now.problem self.now.table }
    {
        self.values.as_slice()
    }

    /// For each slack, the target's included, the objective's number there over the den, 0 where it is a member. They
    /// weigh the rows (linear duality): bounds to the objective's value, and entries to the objective and its numbers
    /// at columns. Where the tableau is blocked none is below 0, and the target's is 0. No cost.
    pub fn slacks(&self) -> &[i128]
        ensures slacks { result.now ≡ slacks_of self.now.problem self.now.table }
        ensures duals { AreDuals self.now.problem self.now.table }
        ensures above { IsBlocked self.now.problem self.now.table → (v : ℕ) → pos 0 ≤ℤ number_for self.now.table v }
        ensures free { IsBlocked self.now.problem self.now.table
            → number_for self.now.table (self.now.problem.columns + length self.now.problem.rows) ≡ pos 0 }
    {
        self.slacks.as_slice()
    }

    /// Whether there is a step from the table, wide or not: the objective is below the target, and some column or slack
    /// improves it. It goes once through the objective's row, and takes no memory.
    pub fn can_improve(&self) -> bool
        ensures step { IsTrue result ↔ CanImprove self.now.problem self.now.table }
        ensures neither { IsTrue result ↔
            ((IsReached self.now.problem self.now.table → ⊥) × (IsBlocked self.now.problem self.now.table → ⊥)) }
    {
        if is_reached(&self.problem, &self.table) {
            return false;
        }
        match entering_place(&self.table) {
            Some(_) => true,
            None => false,
        }
    }

    /// Makes the step from the table, by the rule of the least number and the lexicographic order, with the numbers
    /// kept whole (integer pivoting), or says why it isn't made: Reached, Blocked, or Wide with a place at which the
    /// step's exchange needs a number of 2^127 or more. After every answer but Improved, and after want of memory, the
    /// tableau is as it was.
    ///
    /// It goes through the objective's row for what comes in, once through all rows, looking one number of each up by
    /// halves, and compares the lists of those that could leave as far as they are alike. Each row has a den of its own,
    /// so it makes only the rows anew that have a number at what comes in, in lowest terms, and leaves all others as they
    /// are; then it goes once through the rows' dens and the members' values, and through the objective's row. Until the
    /// step is made it takes memory for the new rows beside the old ones.
    pub fn improve(&mut self) -> Result<Step, Memory>
        requires { self.old.improved < 2 ^ 64 - 1 }
        ensures problem { self.new.problem ≡ self.old.problem }
        ensures improved { result ≡ Ok Step.Improved → IsStepOf self.old.problem self.old.table self.new.table }
        ensures counted { result ≡ Ok Step.Improved → self.new.improved ≡ self.old.improved + 1 }
        ensures same { result ≢ Ok Step.Improved → self.new ≡ self.old }
        ensures reached { IfOk result (λ step. (step ≡ Step.Reached) ↔ IsReached self.old.problem self.old.table) }
        ensures blocked { IfOk result (λ step. (step ≡ Step.Blocked) ↔ IsBlocked self.old.problem self.old.table) }
        ensures wide { (row column : ℕ) → result ≡ Ok (Step.Wide row column)
            → IsWideStep self.old.problem self.old.table row column }
    {
        let step = make_step(&self.problem, &mut self.table, self.alloc)?;
        let Step::Improved = step else {
            return Ok(step);
        };
        read_values(self.values.as_mut_slice(), &self.problem, &self.table);
        read_slacks(self.slacks.as_mut_slice(), &self.problem, &self.table);
        self.improved += 1;
        Ok(Step::Improved)
    }
}
