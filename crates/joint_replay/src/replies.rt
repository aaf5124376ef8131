// The replies that carry nothing.

ghost use Rattle.std.specs.Prelude.{◌≡◌, ◌↔◌, IsTrue};
ghost use Rattle.joint_replay.specs.Plain.{refusal_reply};

use joint_model::Reply;

/// Why an event does nothing: the variable is empty, the object has no such field, nothing was read, there is no room,
/// the target was freed, the cell or the name has a value, it has none, or the object holds no handle.
#[derive(Clone, Copy)]
pub(crate) enum Refusal {
    Empty,
    Range,
    Null,
    Full,
    Gone,
    Taken,
    Unset,
    Plain,
}

impl Refusal {
    /// Whether the reply is that of the refusal.
    pub(crate) fn is_said(self, reply: &Reply) -> bool
        ensures { IsTrue result ↔ (reply.now ≡ refusal_reply self) }
    {
        match self {
            Refusal::Empty => matches!(reply, Reply::Empty),
            Refusal::Range => matches!(reply, Reply::Range),
            Refusal::Null => matches!(reply, Reply::Null),
            Refusal::Full => matches!(reply, Reply::Full),
            Refusal::Gone => matches!(reply, Reply::Gone),
            Refusal::Taken => matches!(reply, Reply::Taken),
            Refusal::Unset => matches!(reply, Reply::Unset),
            Refusal::Plain => matches!(reply, Reply::Plain),
        }
    }
}

/// Whether the reply says that the event took place, and nothing else.
pub(crate) fn says_ok(reply: &Reply) -> bool
    ensures { IsTrue result ↔ (reply.now ≡ Reply.Ok) }
{
    matches!(reply, Reply::Ok)
}
