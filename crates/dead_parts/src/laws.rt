// The law.

ghost use Rattle.dead_parts.specs.Graphs.{GraphsContractionIsDeadParts};

/// The contraction of a dead part's graph is, by the nodes' numbers, the contraction of the dead part.
pub fn a_graphs_contraction_is_its_dead_parts()
    ensures { GraphsContractionIsDeadParts }
{}
