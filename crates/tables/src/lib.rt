// Tables of rules and definitions.
// Document 01, "Fields": the table file; "What the bytes bring about": 1 to 9.
#![tactic(auto)]

pub mod fields;
pub mod lookup;
pub mod repeats;
