// The arities of tactics over bytes: of a term, and of the defined tactics of a table, by tactic number in lent work space.
// Document 01, "Running a tactic": "Arity of tactics"; section 2.1 of the paper.
#![tactic(auto)]

pub mod arity;
pub mod codes;
pub mod layout;
pub mod rounds;
