// Why something is refused, and where.
// Document 01, "What the bytes bring about" and "What the state brings about": every refusal has a number, and a place where it names a file.
ghost use Rattle.std.specs.Prelude.{◌≡◌};
ghost use Rattle.format.specs.Refusals.{number};

// The causes, in the order of their numbers: from document 01; document 02, P5 (34, 35), P8 (36, 37), P12 (40) and P13 (41, 42).
#[derive(Clone, Copy)]
pub enum Cause {
    InputTooLong,
    FieldTorn,
    TagNotAllowed,
    LengthWrong,
    LimitPassed,
    RuleRepeated,
    PremiseCountDiffers,
    TacticRedefined,
    LabelRepeated,
    RuleMissing,
    RemainingDiffer,
    JoinedTooLong,
    TacticFailed,
    BudgetSpent,
    BudgetTooLarge,
    OutputTooShort,
    EntryWrong,
    GoalsPending,
    EntriesTooMany,
    WorkTooShort,
    StateNotGenuine,
    GoalCountWrong,
    GoalsTooFew,
    TextWrong,
    ValueTooLarge,
    FieldsTooMany,
    NoEvaluation,
    HeightOutside,
}

impl Cause {
    // Its number. Two causes have 27, a flat file that is wrong; every other number has one.
    #[tactic(auto, unfolding(crate::specs::Refusals::number))]
    pub fn number(self) -> u8
        ensures { result ≡ number self }
    {
        match self {
            Cause::InputTooLong => 1,
            Cause::FieldTorn => 2,
            Cause::TagNotAllowed => 3,
            Cause::LengthWrong => 4,
            Cause::LimitPassed => 5,
            Cause::RuleRepeated => 6,
            Cause::PremiseCountDiffers => 7,
            Cause::TacticRedefined => 8,
            Cause::LabelRepeated => 9,
            Cause::RuleMissing => 20,
            Cause::RemainingDiffer => 21,
            Cause::JoinedTooLong => 22,
            Cause::TacticFailed => 23,
            Cause::BudgetSpent => 24,
            Cause::BudgetTooLarge => 25,
            Cause::OutputTooShort => 26,
            Cause::EntryWrong | Cause::GoalsPending => 27,
            Cause::EntriesTooMany => 28,
            Cause::WorkTooShort => 29,
            Cause::StateNotGenuine => 30,
            Cause::GoalCountWrong => 34,
            Cause::GoalsTooFew => 35,
            Cause::TextWrong => 36,
            Cause::ValueTooLarge => 37,
            Cause::FieldsTooMany => 40,
            Cause::NoEvaluation => 41,
            Cause::HeightOutside => 42,
        }
    }
}

// A refusal in a file: its cause, and the byte offset where the field's tag is or should be.
#[derive(Clone, Copy)]
pub struct Refusal {
    pub cause: Cause,
    pub place: usize,
}

impl Refusal {
    pub fn new(cause: Cause, place: usize) -> Refusal
        ensures { result ≡ record { cause = cause; place = place } }
    {
        Refusal { cause, place }
    }
}
