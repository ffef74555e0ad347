//! How a change is made: its place is found or made, with room for an entry, and then the change is
//! made and entered, which takes no memory. `Store` does one after the other.
ghost use Rattle.std.specs.Prelude.{◌≡◌, ◌<◌, OnOk, IfOk, IfSome};
ghost use Rattle.amr_engine.specs.State.Records.{after_change};
ghost use Rattle.amr_engine.specs.State.Stored.{shown_by, with_roster, IsEntered, IsPlaceOf, IsRoomier, MorePlaces};

use crate::state::change::Change;
use crate::state::tables::Tables;
use amr_tables::Journal;
use std::alloc::AllocError;

/// Returns the number of a change's place, which is `known` if it was looked up before. Makes the
/// place if there is none, and room for an entry in the open record.
#[inline(always)]
pub(crate) fn make_room(
    tables: &mut Tables,
    journal: &mut Journal<Change>,
    known: Option<usize>,
    change: &Change,
) -> Result<usize, AllocError>
    requires { IfSome known (λ number. IsPlaceOf tables.old change.now number) }
    ensures number { IfOk result (λ number. IsPlaceOf tables.new change.now number) }
    ensures room { OnOk result (0 < journal.new.entry_room) }
    ensures roomier { IsRoomier tables.old journal.old tables.new journal.new }
{
    let number = match known {
        Some(number) => number,
        None => tables.place(change)?,
    };
    journal.reserve_entry()?;
    Ok(number)
}

/// Makes a change, given the number of its place, and enters the one that leads back into the open
/// record. It takes no memory.
#[inline(always)]
pub(crate) fn enter(
    tables: &mut Tables,
    journal: &mut Journal<Change>,
    number: usize,
    mut change: Change,
)
    requires room { 0 < journal.old.entry_room }
    requires number { IsPlaceOf tables.old change number }
    ensures state { shown_by tables.new ≡ after_change (shown_by tables.old) change }
    ensures places { MorePlaces (with_roster tables.old change) tables.new }
    ensures entered { IsEntered tables.old journal.old change journal.new }
{
    tables.displace(number, &mut change);
    journal.push(change);
}
