// The calls that carry an open cycle on and close it. Each makes one entry of the driver, and none takes memory.

ghost use Rattle.std.specs.Prelude.{◌≡◌, ℕ, List, Some, IsSome, false};
ghost use Rattle.joint_machine.specs.declared.names.Thread.TheVariants.{C};
ghost use Rattle.joint_machine.specs.Managed.{OpenCycle};
ghost use Rattle.joint_machine.specs.Sides.{MayDraw, managed_rules};
ghost use Rattle.managed_heap.specs.Calls.{Abandons, Contracts, MayContractWith, Resolves, abandon_op, contract_op};
ghost use Rattle.managed_heap.specs.Calls.{resolve_op};
ghost use Rattle.managed_heap.specs.Resolving.{MayClose};
ghost use Rattle.managed_heap.specs.Sides.{as_side};

use crate::rooms::give_back;
use crate::side::ManagedSide;
use joint_model::{Alive, Cycle, Draw, Made, Op, Reply, Span, Thread, enter};

/// What a resolution answers: where the freed rows stand in the list of freed ones, and how many candidates were kept.
#[derive(Clone, Copy, PartialEq, Eq)]
pub struct ResolveOut {
    pub freed: Span,
    pub kept: u32,
}

impl ManagedSide {
    /// The open cycle's contraction is made, with so many components, heavy classes counted in, and cross-references.
    /// One entry is drawn and put last. It takes no memory.
    pub fn contracted<D: Draw>(&mut self, draw: &mut D, index: u32, sccs: u32, xrefs: u32)
        requires contracted { MayContractWith self.old.state sccs xrefs }
        requires may { (c : OpenCycle) → self.old.state.managed.cycle ≡ Some c
            → MayDraw managed_rules D.rules draw.old (as_side self.old) C (contract_op c) }
        ensures contracts { (c : OpenCycle) → self.old.state.managed.cycle ≡ Some c
            → Contracts D.rules draw.old draw.new (as_side self.old) (as_side self.new) index sccs xrefs c }
        ensures used { self.new.ready ≡ false }
    {
        let cycle = Cycle(self.rows.contract());
        let made = Made {
            caller: Thread::C,
            index,
            op: Op::Contract { cycle },
            reply: Reply::Sccs(sccs, xrefs),
            cites: None,
        };
        enter(&mut self.entries, draw, made, None, &[]);
        give_back(&mut self.room);
    }

    /// Resolves the open cycle: frees the rows of the dead part that no candidate reaches that was answered alive,
    /// queues a notice for each of them that holds a handle, in rising number, takes their pairs out of the registry,
    /// gives each kept candidate the handle that its restore gave, and closes the cycle. `alive` has one value for each
    /// candidate, in rising number; its handles are all different, and no row ever took one of them. One entry is drawn
    /// and put last; it cites `cites`. It takes no memory.
    ///
    /// Where no candidate that was answered alive leads to one that wasn't, the freed rows that hold a handle are
    /// exactly the candidates that weren't answered alive.
    pub fn resolve<D: Draw>(
        &mut self,
        draw: &mut D,
        index: u32,
        cites: u64,
        alive: &Alive,
    ) -> ResolveOut
        requires close { MayClose self.old.state alive.now.values }
        requires may { (c : OpenCycle) → self.old.state.managed.cycle ≡ Some c
            → MayDraw managed_rules D.rules draw.old (as_side self.old) C (resolve_op c) }
        ensures resolves { Resolves D.rules draw.old draw.new (as_side self.old)
            (as_side self.new) index cites alive.now.values result }
        ensures used { self.new.ready ≡ false }
    {
        let resolution = self.rows.resolve(alive);
        let _spare = self.entries.spare();
        self.takings.push_answers(alive);
        let span = Span {
            first: resolution.first,
            count: resolution.freed.len() as u32,
        };
        let made = Made {
            caller: Thread::C,
            index,
            op: Op::Resolve {
                cycle: Cycle(resolution.cycle),
            },
            reply: Reply::Freed(span),
            cites: Some(cites),
        };
        enter(&mut self.entries, draw, made, None, &resolution.freed);
        give_back(&mut self.room);
        ResolveOut {
            freed: span,
            kept: resolution.kept,
        }
    }

    /// Closes the open cycle; nothing is freed. One entry is drawn and put last. It takes no memory.
    pub fn abandon<D: Draw>(&mut self, draw: &mut D, index: u32)
        requires open { IsSome self.old.state.managed.cycle }
        requires may { (c : OpenCycle) → self.old.state.managed.cycle ≡ Some c
            → MayDraw managed_rules D.rules draw.old (as_side self.old) C (abandon_op c) }
        ensures abandons { (c : OpenCycle) → self.old.state.managed.cycle ≡ Some c
            → Abandons D.rules draw.old draw.new (as_side self.old) (as_side self.new) index c }
        ensures used { self.new.ready ≡ false }
    {
        let cycle = Cycle(self.rows.abandon());
        let made = Made {
            caller: Thread::C,
            index,
            op: Op::Abandon { cycle },
            reply: Reply::Ok,
            cites: None,
        };
        enter(&mut self.entries, draw, made, None, &[]);
        give_back(&mut self.room);
    }
}
