/// Which test of an entry fails.
#[derive(Clone, Copy, Debug, PartialEq, Eq)]
pub enum Why {
    /// It isn't its caller's turn to make such an event on that line.
    Caller,

    /// It doesn't cite what it has to, or has other data than the cited entry gave.
    Cite,

    /// It answers, frees or takes something else.
    Reply,
}

/// What a history was found to be.
#[derive(Clone, Copy, Debug, PartialEq, Eq)]
pub enum Finding {
    /// Every entry is in order, and nothing has to follow.
    Legal,

    /// This entry is the first that isn't in order, and this test is the first that fails.
    Illegal { entry: u64, why: Why },

    /// Every entry is in order, and something has to follow.
    Unfinished,
}
