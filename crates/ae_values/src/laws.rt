// Laws over what is bound.
ghost use Rattle.ae_values.specs.Environments.{BindsChangeOneName, LocalsChange, GroupsChange};

/// Where a name is bound anew, or no more, the locals and groups of the meaning change under that name alone.
pub fn binds_change_one_name()
    ensures { BindsChangeOneName }
{}

/// Where a name of no group is bound anew, that local of the state changes, and nothing else.
pub fn locals_change()
    ensures { LocalsChange }
{}

/// Where the name that has a group is bound anew, that group of the state changes, and nothing else.
pub fn groups_change()
    ensures { GroupsChange }
{}
