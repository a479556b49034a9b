// What a refusal is: a broken rule and its place.
ghost use Rattle.std.specs.Prelude.{◌≡◌};
ghost use Rattle.ae_text.specs.Rules.{rule_text};

/// A place in the source: the line, counted from 1, and the column in bytes, counted from 1.
#[derive(Clone, Copy, Debug, PartialEq, Eq)]
pub struct Spot {
    pub line: u32,
    pub col: u32,
}

/// A rule of the language that a source can break. `docs/LANGUAGE.md` has them all.
#[derive(Clone, Copy, Debug, PartialEq, Eq)]
pub enum Rule {
    NotText,
    BadChar,
    IntTooLarge,
    OpenText,
    Unexpected,
    TooLong,
    BlockTooLong,
    TooDeep,
    TooManyParams,
    TooManyGroups,
    DuplicateClass,
    DuplicateMember,
    UnknownClass,
    UnknownMethod,
    UnknownName,
    DuplicateLocal,
    NoMain,
    ArgumentCount,
    TypeMismatch,
    UnknownField,
    ReturnMissing,
    NoPermission,
    NeedsUnique,
    NotReturned,
    ParameterMoved,
    LentEscapes,
    UsedTwice,
    BranchesDiffer,
    LoopChanges,
    UnknownGroup,
    GroupCount,
    NeedsGroup,
    NotExclusive,
    NotShared,
    GroupTwice,
    GroupEscapes,
    NestedAtomic,
    NotBuilt,
}

impl Rule {
    /// The rule's code and name as a refusal prints them, as `S1 Unexpected`.
    pub fn printed(self) -> &'static str
        ensures { result.now ≡ rule_text self }
    {
        match self {
            Rule::NotText => "L1 NotText",
            Rule::BadChar => "L2 BadChar",
            Rule::IntTooLarge => "L3 IntTooLarge",
            Rule::OpenText => "L4 OpenText",
            Rule::Unexpected => "S1 Unexpected",
            Rule::TooLong => "K1 TooLong",
            Rule::BlockTooLong => "K2 BlockTooLong",
            Rule::TooDeep => "K3 TooDeep",
            Rule::TooManyParams => "K4 TooManyParams",
            Rule::TooManyGroups => "K5 TooManyGroups",
            Rule::DuplicateClass => "N1 DuplicateClass",
            Rule::DuplicateMember => "N2 DuplicateMember",
            Rule::UnknownClass => "N3 UnknownClass",
            Rule::UnknownMethod => "N4 UnknownMethod",
            Rule::UnknownName => "N5 UnknownName",
            Rule::DuplicateLocal => "N6 DuplicateLocal",
            Rule::NoMain => "N7 NoMain",
            Rule::ArgumentCount => "N8 ArgumentCount",
            Rule::TypeMismatch => "N9 TypeMismatch",
            Rule::UnknownField => "N10 UnknownField",
            Rule::ReturnMissing => "N11 ReturnMissing",
            Rule::NoPermission => "P1 NoPermission",
            Rule::NeedsUnique => "P2 NeedsUnique",
            Rule::NotReturned => "P3 NotReturned",
            Rule::ParameterMoved => "P4 ParameterMoved",
            Rule::LentEscapes => "P5 LentEscapes",
            Rule::UsedTwice => "P6 UsedTwice",
            Rule::BranchesDiffer => "P7 BranchesDiffer",
            Rule::LoopChanges => "P8 LoopChanges",
            Rule::UnknownGroup => "G1 UnknownGroup",
            Rule::GroupCount => "G2 GroupCount",
            Rule::NeedsGroup => "G3 NeedsGroup",
            Rule::NotExclusive => "G4 NotExclusive",
            Rule::NotShared => "G5 NotShared",
            Rule::GroupTwice => "G6 GroupTwice",
            Rule::GroupEscapes => "G7 GroupEscapes",
            Rule::NestedAtomic => "G8 NestedAtomic",
            Rule::NotBuilt => "U1 NotBuilt",
        }
    }
}

/// The first rule that a source breaks, and where.
#[derive(Clone, Copy, Debug, PartialEq, Eq)]
pub struct Refusal {
    pub rule: Rule,
    pub at: Spot,
}

/// Why a call gave nothing: the source breaks a rule, or memory was refused.
#[derive(Clone, Copy, Debug, PartialEq, Eq)]
pub enum Deny {
    Refused(Refusal),
    Memory,
}

/// A pair of numbers of which the second waits for the first.
#[derive(Clone, Copy, Debug, PartialEq, Eq)]
pub struct Edge {
    pub from: u32,
    pub to: u32,
}
