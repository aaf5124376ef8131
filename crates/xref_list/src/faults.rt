// Why something can't be listed.

ghost use Rattle.std.specs.Prelude.{◌≡◌};

use std::alloc::{AllocError, AllocFailed};

/// Why a component or a cross-reference isn't listed, or the analysis that lists them gives up.
#[derive(Clone, Copy, PartialEq, Eq, Debug)]
pub enum ListingFault {
    /// There is no memory.
    Memory,
    /// There is too much of something that is numbered in 32 bits: the members of all components are more than
    /// 4,294,967,295 together with the cross-references; or what an analysis has found so far, which says itself what
    /// it numbers.
    TooMany,
}

impl From<AllocError> for ListingFault {
    ghost use Rattle.xref_list.specs.declared.faults.ListingFault.TheVariants as cause;

    ghost from_gives = { λ _ e. e ≡ cause.Memory };

    fn from(_error: AllocError) -> ListingFault {
        ListingFault::Memory
    }
}

impl<T: Drop> From<AllocFailed<T>> for ListingFault {
    ghost use Rattle.xref_list.specs.declared.faults.ListingFault.TheVariants as cause;

    ghost from_gives = { λ _ e. e ≡ cause.Memory };

    fn from(_refused: AllocFailed<T>) -> ListingFault {
        ListingFault::Memory
    }
}
