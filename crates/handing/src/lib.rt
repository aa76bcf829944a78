// A table handed out: its parts copied to the buffers, where they have room.
#![tactic(auto)]

ghost use Rattle.std.specs.Prelude.{◌≡◌};
ghost use Rattle.tables.specs.Tables.{table, seen};
ghost use Rattle.outcomes.specs.Outcome.{Leaves};
ghost use Rattle.handing.specs.Handing.{handed_of, lacks_room};

use answers::Answer;
use outcomes::numbers::Refusal;
use tables::table::Table;

#[tactic(auto, unfolding(crate::specs::Handing::lacks_room))]
fn lacks_room(
    t: Table,
    types_room: usize,
    counts_room: usize,
    lengths_room: usize,
    values_room: usize,
) -> bool
    ensures { result ≡ lacks_room (seen t.entry) types_room counts_room lengths_room values_room }
{
    types_room < t.types.len()
        || counts_room < t.counts.len()
        || lengths_room < t.lengths.len()
        || values_room < t.values.len()
}

// An accepted slip's table goes to the four buffers that C lends, or 11; any other answer stays as it is.
#[tactic(auto, using(crate::specs::HandingLaws::handed_refused))]
pub fn hand_out(
    a: Answer,
    t: Table,
    types_out: &mut [u16],
    counts_out: &mut [u16],
    lengths_out: &mut [u16],
    values_out: &mut [u8],
) -> Answer
    ensures { Leaves (handed_of a (seen t.entry) (table types_out.old counts_out.old lengths_out.old values_out.old)) result (table types_out.new counts_out.new lengths_out.new values_out.new) }
{
    if a.number != Refusal::ACCEPTED {
        return a;
    }
    if lacks_room(
        t,
        types_out.len(),
        counts_out.len(),
        lengths_out.len(),
        values_out.len(),
    ) {
        return Answer::from(Refusal::NoRoom.at(0));
    }
    lists::copy(t.types, types_out);
    lists::copy(t.counts, counts_out);
    lists::copy(t.lengths, lengths_out);
    lists::copy(t.values, values_out);
    a
}
