// Back to the truths, where each question about a level begins: from there few cells move, so that its world is small.
use crate::table::Table;
use crate::variable::State;

// Lets every nonbasic variable stand at 0; then every basic one is 0, too.
pub(crate) fn return_to_truths(table: &mut Table) {
    for variable in table.variables.iter_mut() {
        if !variable.is_basic() {
            variable.state = State::Zero;
        }
    }
    for row in table.rows.iter_mut() {
        row.value = 0;
    }
    table.objective.value = 0;
}
