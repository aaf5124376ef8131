// A finished run of which no entry is read.

ghost use Rattle.std.specs.Prelude.{◌≡◌};
ghost use Rattle.joint_machine.specs.Shuffles.{IsJoinable, IsShuffle};
ghost use Rattle.joint_model.specs.Listed.{entry_lists};

use crate::lists::Entries;
use joint_machine::{MNum, PNum};
use std::marker::Model;
use std::snapshot::Snapshot;

/// A finished run whose entries nobody reads: its history is there for proofs alone, and takes no bytes.
#[derive(Drop)]
pub struct PastHistory {
    lists: Snapshot<[Entries; 10]>,
    freed_managed: Snapshot<Vec<MNum>>,
    freed_peers: Snapshot<Vec<PNum>>,
    notices: Snapshot<Vec<MNum>>,
}

impl Model for PastHistory {
    ghost use Rattle.joint_machine.specs.Histories.{Finished};
    ghost use Rattle.joint_model.specs.Listed.{entry_lists};
    ghost use Rattle.joint_model.specs.Merged.{merged_all};

    ghost Value = { Finished };

    ghost view = { λ h. record {
      entries = merged_all (entry_lists h.lists.value);
      freed_managed = h.freed_managed.value.items;
      freed_peers = h.freed_peers.value.items;
      notices = h.notices.value.items;
    } };
}

impl PastHistory {
    /// Joins the lists of both sides and of the eight readers into one history, as
    /// [`History::join`](crate::History::join) does, under the same condition. It takes no memory, and a list may have
    /// let its entries go.
    pub fn join(
        lists: [Entries; 10],
        freed_managed: Vec<MNum>,
        freed_peers: Vec<PNum>,
        notices: Vec<MNum>,
    ) -> PastHistory
        requires { IsJoinable (entry_lists lists) freed_managed.items freed_peers.items notices.items }
        ensures shuffle { IsShuffle (entry_lists lists) result.entries }
        ensures managed { result.freed_managed ≡ freed_managed.items }
        ensures peers { result.freed_peers ≡ freed_peers.items }
        ensures notices { result.notices ≡ notices.items }
    {
        PastHistory {
            lists: Snapshot::of(&lists),
            freed_managed: Snapshot::of(&freed_managed),
            freed_peers: Snapshot::of(&freed_peers),
            notices: Snapshot::of(&notices),
        }
    }
}
