// What the driver's phases rest on.

ghost use Rattle.bridge_cycle.specs.Composing.{PhasesMakeACycle, PhasesRunOn, RestMakesACycle};

/// What runs of phases make one after another is what one run of all these phases makes. So eight calls, one for each
/// phase, make the entries of a `cycle` line; and so do a snap and the call that makes the phases which are left of the
/// cycle.
pub fn phases_make_a_cycle()
    ensures on { PhasesRunOn }
    ensures eight { PhasesMakeACycle }
    ensures rest { RestMakesACycle }
{}
