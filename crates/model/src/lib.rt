// The types of document 01 that the rules speak of: the kinds of a range's bounds, and the refusals. The rules are in specs/.
#![tactic(auto)]

ghost use Rattle.std.specs.Prelude.{◌≡◌};
ghost use Rattle.model.specs.Answers.{length_told, number_of};

#[derive(Debug, Clone, Copy, PartialEq, Eq)]
pub enum Bound {
    Included,
    Excluded,
    Open,
}

// A range's two bound kinds; the bound keys are lent beside it.
#[derive(Debug, Clone, Copy, PartialEq, Eq)]
pub struct Range {
    pub start: Bound,
    pub end: Bound,
}

/// Why a call was refused, in the order of the numbers, 1 to 8. What was lent is then as it was.
#[derive(Debug, Clone, Copy, PartialEq, Eq)]
pub enum Refusal {
    /// Fanout or buffers don't have the sizes of an index.
    Shape,
    /// Header and buffers don't hold an index.
    Damaged,
    LongKey,
    LongValue,
    /// The length in bytes that the output needs.
    ShortOutput(usize),
    /// The range's start key is above its end key.
    InvertedRange,
    NoLeaf,
    /// The pair would take the charge over the arena's length.
    NoRoom,
}

impl Refusal {
    /// The number of the table of refusals, for those who can't match on it.
    pub fn number(self) -> usize
        ensures { result ≡ number_of self }
    {
        match self {
            Refusal::Shape => 1,
            Refusal::Damaged => 2,
            Refusal::LongKey => 3,
            Refusal::LongValue => 4,
            Refusal::ShortOutput(_) => 5,
            Refusal::InvertedRange => 6,
            Refusal::NoLeaf => 7,
            Refusal::NoRoom => 8,
        }
    }

    /// The length in bytes that an output needs, where that is what it lacks.
    pub fn length(self) -> Option<usize>
        ensures { result ≡ length_told self }
    {
        match self {
            Refusal::ShortOutput(length) => Some(length),
            _ => None,
        }
    }
}
