// The circle of a component.

ghost use Rattle.std.specs.Prelude.{◌≡◌, ◌+◌, ◌<◌, ◌≤◌, ◌++◌, length, vec_len, vec_capacity};
ghost use Rattle.joint_machine.specs.Components.{circle};

/// Appends the circle of a component: an edge from each member to the next, and from the last to the
/// first; none where there is only one member. There is room for an edge a member.
pub(crate) fn push_circle(members: &[u32], circles: &mut Vec<(u32, u32)>)
    requires some { 0 < length members.now }
    requires room { vec_len circles.old + length members.now ≤ vec_capacity circles.old }
    ensures { circles.new.items ≡ circles.old.items ++ circle members.now }
{
    if members.len() > 1 {
        for i in 1..members.len() {
            circles.push_reserved((members[i - 1], members[i]));
        }
        circles.push_reserved((members[members.len() - 1], members[0]));
    }
}
