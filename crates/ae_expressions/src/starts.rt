// Which operands begin with a token.
ghost use Rattle.std.specs.Prelude.{◌≡◌};
ghost use Rattle.ae_expressions.specs.Productions as productions;
ghost use Rattle.ae_expressions.specs.Productions.{StartIs};

use ae_text::{Keyword, Sign};
use ae_tree::Lexical;

/// The forms whose first token counts.
#[derive(Clone, Copy)]
pub(crate) enum Mark {
    Len,
    Paren,
    Not,
    Minus,
}

/// The forms of operands, by their first token.
#[derive(Clone, Copy)]
pub(crate) enum Start {
    /// One token: a number, a truth value or `null`.
    Literal,
    /// A path, and perhaps an index.
    Place,
    /// A form whose first token counts.
    Counted(Mark),
    /// No operand.
    Other,
}

fn start_of_word(word: Keyword) -> Start
    ensures is { result ≡ productions.start_of_word word }
    ensures kind { StartIs (Lexical.Word word) result }
{
    match word {
        Keyword::True | Keyword::False | Keyword::Null => Start::Literal,
        Keyword::This => Start::Place,
        Keyword::Len => Start::Counted(Mark::Len),
        _ => Start::Other,
    }
}

fn start_of_sign(sign: Sign) -> Start
    ensures is { result ≡ productions.start_of_sign sign }
    ensures kind { StartIs (Lexical.Sign sign) result }
{
    match sign {
        Sign::OpenParen => Start::Counted(Mark::Paren),
        Sign::Not => Start::Counted(Mark::Not),
        Sign::Minus => Start::Counted(Mark::Minus),
        _ => Start::Other,
    }
}

/// Which operands begin with this token.
pub(crate) fn start_of(kind: &Lexical) -> Start
    ensures is { result ≡ productions.start_of kind.now }
    ensures kind { StartIs kind.now result }
{
    match kind {
        Lexical::Name(_) => Start::Place,
        Lexical::Int(_) => Start::Literal,
        Lexical::Word(word) => start_of_word(*word),
        Lexical::Sign(sign) => start_of_sign(*sign),
        Lexical::Text(_) | Lexical::End => Start::Other,
    }
}
