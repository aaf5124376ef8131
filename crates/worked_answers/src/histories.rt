// What is told of histories, and of the listing of their cycles.

ghost use Rattle.worked_answers.specs.Listings.{ListingsAreTold};
ghost use Rattle.worked_answers.specs.Threads.{ThreadsAreTold};

/// What is listed of a cycle without a dead part is its number: no component, no heavy class and no reference. A cycle
/// is listed once, while it is open.
pub fn listings_are_told()
    ensures { ListingsAreTold }
{}

/// The linked histories of two threads, of which the one comes first or the other, aren't one.
pub fn threads_are_told()
    ensures { ThreadsAreTold }
{}
