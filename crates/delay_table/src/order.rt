//! The order in which places were listed.
ghost use Rattle.std.specs.Prelude.{◌≡◌, ◌<◌, ◌≤◌, Some, false, length, slice_get, take, vec_capacity};
ghost use Rattle.delay_table.specs.Table.{AreApart, contains, without};
ghost use Rattle.delay_table.specs.Fields.{turns_of};

/// Where this place comes first among the turns, or their number if it isn't among them.
fn first_of(turns: &[u32], place: u32) -> usize
    ensures within { result ≤ length turns.now }
    ensures before { contains place (take result turns.now) ≡ false }
    ensures there { result < length turns.now → slice_get turns.now result ≡ Some place }
{
    let mut at = 0;
    while at < turns.len() && turns[at] != place {
        at += 1;
    }
    at
}

/// Takes a place out of the order, from `from` on, if it is listed.
pub(crate) fn strike(order: &mut Vec<u32>, from: usize, place: u32, is_listed: bool)
    requires listed { contains place (turns_of from (order.old).items) ≡ is_listed }
    requires within { from ≤ length (order.old).items }
    requires once { AreApart (turns_of from (order.old).items) }
    ensures turns { turns_of from (order.new).items
        ≡ without place (turns_of from (order.old).items) }
    ensures within { from ≤ length (order.new).items }
    ensures shorter { length (order.new).items ≤ length (order.old).items }
    ensures room { vec_capacity order.new ≡ vec_capacity order.old }
{
    if !is_listed {
        return;
    }
    let turns = order.as_slice().split_at(from).1;
    let at = first_of(turns, place);
    if at < turns.len() {
        order.remove(from + at);
    }
}
