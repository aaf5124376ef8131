// The lists of numbers that a history has beside its entries.

ghost use Rattle.std.specs.Prelude.{◌≡◌, ◌^◌, take, slice_get, option_map};
ghost use Rattle.history_report.specs.Lists.{numbers_of, letter_of};

use joint_model::{History, MNum, PNum};

/// One of a history's lists: the managed objects that were freed, the peers that were freed, and the notices.
#[derive(Clone, Copy)]
pub enum Numbers {
    Freed,
    FreedPeers,
    Notices,
}

impl Numbers {
    ghost use Rattle.history_report.specs.Lists.{numbers_of, letter_of};

    /// The letter of its objects.
    pub fn letter(self) -> u8
        ensures { result ≡ letter_of self }
    {
        match self {
            Numbers::Freed | Numbers::Notices => b'm',
            Numbers::FreedPeers => b'p',
        }
    }

    /// The number at a place of the list, from 0; None past its end and past the last place that a span names.
    pub fn at(self, h: &History, i: u64) -> Option<u32>
        ensures { result ≡ slice_get (take (2 ^ 32) (numbers_of h.now self)) i }
    {
        if i > u32::MAX as u64 {
            return None;
        }
        let i = i as u32;
        match self {
            Numbers::Freed => managed_number(h.freed_managed(i)),
            Numbers::FreedPeers => peer_number(h.freed_peer(i)),
            Numbers::Notices => managed_number(h.notice(i)),
        }
    }
}

// The number of a managed object, where there is one.
fn managed_number(m: Option<MNum>) -> Option<u32>
    ensures { result ≡ option_map (λ m. m.0) m }
{
    match m {
        Some(m) => Some(m.0),
        None => None,
    }
}

// The number of a peer, where there is one.
fn peer_number(p: Option<PNum>) -> Option<u32>
    ensures { result ≡ option_map (λ p. p.0) p }
{
    match p {
        Some(p) => Some(p.0),
        None => None,
    }
}
