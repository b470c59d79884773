//! Laws of the definitions, each the contract of a function with an empty body.

ghost use Rattle.relations.specs.TableSigns.{OneOrTwoWayHasSigns, OneVariableHasSigns, TwoFlatVariablesHaveSigns};

/// The relations of one table of one variable have signs, whatever its tree and its depth.
pub fn one_variable_has_signs()
    ensures { OneVariableHasSigns }
{}

/// The relations of one table of two variables have signs where it has flat trees of both, as at depth 1.
pub fn two_flat_variables_have_signs()
    ensures { TwoFlatVariablesHaveSigns }
{}

/// The relations of one table of one variable, and of one table of two flat ones, have signs.
pub fn one_or_two_way_has_signs()
    ensures { OneOrTwoWayHasSigns }
{}
