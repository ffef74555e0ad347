//! Laws of scripts, as functions that do nothing: their contracts are the laws. Nothing calls them.
ghost use Rattle.amr_events.specs.EventLaws.{ReadEventsAreStatable};
ghost use Rattle.amr_events.specs.ScriptLaws.{AFaultIsTheOnlyAnswer};

/// Says that a script with a first fault has no other first fault and can't be read. So a script is
/// refused exactly if it can't be read.
pub fn a_fault_is_the_only_answer()
    ensures { AFaultIsTheOnlyAnswer }
{}

/// Says that the moments of an event that was read, and those of its action, are from 1970 to the
/// end of the year 8999.
pub fn read_events_are_statable()
    ensures { ReadEventsAreStatable }
{}
