// Laws of what is told beside entries.

ghost use Rattle.joint_laws.specs.ToldLaws.{LinkedIsHistory, NoticesAreNamed, ToldIsNamed};

/// In a linked history, what is told of freeing beside an entry is the stretch of the history's freed list that the
/// span in its reply names, which lies within the list; beside every other reply nothing freed is told.
pub fn told_lists_are_named()
    ensures { ToldIsNamed }
{}

/// In a linked history, the notices that an entry takes are the stretch of the history's notices that its span names:
/// the span starts behind those taken before, and ends within those that were queued by then.
pub fn taken_notices_are_named()
    ensures { NoticesAreNamed }
{}

/// The entries of a linked history fit its lists: each names a caller and an event, and each span in a reply lies in
/// its list and, but for notices, rises there.
pub fn linked_histories_fit_their_lists()
    ensures { LinkedIsHistory }
{}
