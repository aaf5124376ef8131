// The law, the contract of a function that does nothing.

ghost use Rattle.summary_laws.specs.Laws.{HeapsAddUp, HeapsOfLinked, TalliesAreOfStates, TalliesOfLinked};

/// The tally of the entries of a lawful list is the numbers of the state after it: how many cycles were opened, what
/// was made, and what is left, the objects that aren't freed and the handles in the table. So the tally of a linked
/// history is that of its last state. What is left of each heap and what was freed are what was made, after a lawful
/// list and at the end of a linked history.
pub fn tallies_are_of_states()
    ensures list { TalliesAreOfStates }
    ensures linked { TalliesOfLinked }
    ensures heaps { HeapsAddUp }
    ensures linked_heaps { HeapsOfLinked }
{}
