//! Values at the numbers of places, of which some are empty.
ghost use Rattle.std.specs.Prelude.{◌≡◌, ◌<◌, ◌++◌, ◌-◌, length, replicate, None, OnOk};

use std::alloc::AllocError;

/// Adds empty places until there is one with this number.
pub fn make_place<V: Drop>(places: &mut Vec<Option<V>>, number: usize) -> Result<(), AllocError>
    ensures place { OnOk result (number < length places.new.items) }
    ensures values { places.new.items ≡ places.old.items
        ++ replicate (length places.new.items - length places.old.items) None }
{
    while places.len() <= number {
        places.push(None)?;
    }
    Ok(())
}
