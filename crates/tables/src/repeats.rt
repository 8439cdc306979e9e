// Refusals 6, 7, 8 and 9: a field that clashes with an earlier one. What is repeated says which fields are meant, and how far it is from one header to the next. The searches are in crates index and seen.
ghost use Rattle.std.specs.Prelude.{◌≡◌};
ghost use Rattle.tables.specs.Search.{searched_tag, step_at, Room};

use format::tags::{DEFINITION_TAG, LABEL, RULE_TAG, least_of};
use words::load16;

// What is repeated: 6, a rule's name and goal; 7, a rule's name with another count of premises; 8, a tactic number; 9, a label.
#[derive(Clone, Copy, PartialEq, Eq)]
pub enum Repeat {
    Rule,
    PremiseCount,
    Tactic,
    Label,
}

impl Repeat {
    // The tag of the fields that the search is about: rules, definitions, labels.
    #[tactic(auto, unfolding(crate::specs::Search::searched_tag))]
    pub fn tag(self) -> u8
        ensures { result ≡ searched_tag self }
    {
        match self {
            Repeat::Rule | Repeat::PremiseCount => RULE_TAG,
            Repeat::Tactic => DEFINITION_TAG,
            Repeat::Label => LABEL,
        }
    }

    // From one header to the next. For labels only the values in front are passed over, so that the inner terms are met; else the whole field.
    #[tactic(auto, unfolding(crate::specs::Search::step_at))]
    pub fn step(self, s: &[u8], at: usize) -> usize
        requires { Room s.now at }
        ensures { result ≡ step_at self s.now at }
    {
        match self {
            Repeat::Label => 3 + least_of(s[at]) as usize,
            _ => 3 + load16(s, at + 1) as usize,
        }
    }
}
