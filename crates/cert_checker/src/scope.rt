use crate::spec_table::SpecTable;
use erl_tree::Pattern;
use key_sets::KeySet;
use type_terms::List;

/// Where an expression stands: in the body of a function's clause.
#[derive(Drop)]
pub struct Scope<'a> {
    pub table: &'a SpecTable,
    /// The number of the function, from 0, in text order.
    pub number: usize,
    pub patterns: &'a List<Pattern>,
    /// The sets of the parameters, one for each pattern.
    pub params: &'a List<KeySet>,
}
