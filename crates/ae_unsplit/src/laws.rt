// A law on source texts.
ghost use Rattle.ae_unsplit.specs.Unsplit.{TextsHaveThisFree};

use ae_tree::this_is_no_declared_name;

/// A program that was read from a text declares nothing under the name `this`, since a keyword is no name.
pub fn texts_have_this_free()
    ensures { TextsHaveThisFree }
{
    this_is_no_declared_name();
}
