// Entries copied to the start of a lent room, where later room keeps its contents. Assumes that they are there and that there is room.
#![tactic(auto)]

ghost use Rattle.std.specs.Prelude.{◌≡◌};
ghost use Rattle.rooms.specs.Rooms.{copied, Copies};

pub fn copy<T: Copy>(from: &[T], m: usize, room: &mut [T])
    requires { Copies m from.now room.old }
    ensures { room.new ≡ copied m from.now room.old }
{
    for i in 0..m {
        room[i] = from[i];
    }
}
