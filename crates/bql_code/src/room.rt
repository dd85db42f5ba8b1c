//! Whether code has room in a section, and its values on the stack.
ghost use Rattle.std.specs.Prelude.{◌≡◌, ◌<◌, ◌+◌, nat_le, MatchOption};
ghost use Rattle.bql_code.specs.Code.{size, all_size, depth, all_depth};
ghost use Rattle.bql_code.specs.Kept.{core_of, cores_of};

use crate::computed::Core;

/// The room that is left behind the code of an expression, if it has room.
pub fn room_behind(core: &Core<'_>, room: usize) -> Option<usize>
    ensures { MatchOption result (room < size (core_of core.now))
        (λ left. left + size (core_of core.now) ≡ room) }
{
    match core {
        Core::Load(_) => room.checked_sub(1),
        Core::Change(_, x) => room_behind(x, room)?.checked_sub(1),
        Core::Join(_, x, y) => {
            let left = room_behind(x, room)?;
            room_behind(y, left)?.checked_sub(1)
        }
        Core::And(x, y) => {
            let left = room_behind(x, room)?;
            room_behind(y, left)?.checked_sub(5)
        }
        Core::Or(x, y) => {
            let left = room_behind(x, room)?;
            room_behind(y, left)?.checked_sub(7)
        }
    }
}

/// The same of the code of some expressions, one behind the other.
pub fn room_behind_all(cores: &[Core<'_>], room: usize) -> Option<usize>
    ensures { MatchOption result (room < all_size (cores_of cores.now))
        (λ left. left + all_size (cores_of cores.now) ≡ room) }
{
    let mut left = room;
    for core in cores {
        left = room_behind(core, left)?;
    }
    Some(left)
}

/// Whether an expression needs at most so many values on the stack.
pub fn is_within(core: &Core<'_>, most: usize) -> bool
    ensures { result ≡ nat_le (depth (core_of core.now)) most }
{
    match core {
        Core::Load(_) => 1 <= most,
        Core::Change(_, x) => is_within(x, most),
        Core::Join(_, x, y) => is_within(x, most) && 1 <= most && is_within(y, most - 1),
        Core::And(x, y) => is_within(x, most) && is_within(y, most),
        Core::Or(x, y) => is_within(x, most) && is_within(y, most),
    }
}

/// The same of some expressions, whose values are left there.
pub fn are_within(cores: &[Core<'_>], most: usize) -> bool
    ensures { result ≡ nat_le (all_depth 0 (cores_of cores.now)) most }
{
    let mut room = most;
    for core in cores {
        if room == 0 || !is_within(core, room) {
            return false;
        }
        room -= 1;
    }
    true
}
