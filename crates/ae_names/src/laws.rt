// Laws on the names of a call.
ghost use Rattle.ae_names.specs.Known.{DeclaredAreFree, NamesAreKnown, NamesEnd};

use ae_rules::lines_add_what_they_declare;

/// Where a block ends, the names end that were bound since it began, and that is what the meaning forgets.
pub fn names_end_with_a_block()
    ensures { NamesEnd }
{}

/// After a judged statement the names are known that were known before, and those that it declares, each local in its
/// form.
pub fn names_are_known()
    ensures { NamesAreKnown }
{
    lines_add_what_they_declare();
}

/// Under the name that a judged statement declares nothing is bound.
pub fn declared_names_are_free()
    ensures { DeclaredAreFree }
{}
