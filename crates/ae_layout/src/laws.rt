// What holds of the canonical layout.
ghost use Rattle.ae_layout.specs.Laws.{IsCutAgain, IsReadAgain};

/// The layout of a program is cut into the program's tokens, where some text has those tokens.
pub fn layout_has_the_tokens_again()
    ensures { IsCutAgain }
{}

/// The layout of a program that some text stands for is a text that stands for the same program, but for places,
/// and within the limits where that program is.
pub fn a_layout_is_read_as_the_program()
    ensures { IsReadAgain }
{}
