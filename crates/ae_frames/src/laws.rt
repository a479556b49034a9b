// Laws over calls.
ghost use Rattle.ae_frames.specs.Entries.{CallsEnterAlike};
ghost use Rattle.ae_frames.specs.Leaving.{CallsLeaveAlike, NeededGroupsStay};

/// Wherever a call stands, it is entered as `entered` says.
pub fn calls_are_entered()
    ensures { CallsEnterAlike }
{}

/// Where a call is left, what was kept of its caller tells all that comes back.
pub fn calls_are_left()
    ensures { CallsLeaveAlike }
{}

/// Where the names of a body have at its end the shapes with which it began, the groups that were needed stay.
pub fn needed_groups_stay()
    ensures { NeededGroupsStay }
{}
