//! Laws of what a session prints, as functions that do nothing: their contracts are the laws.
//! Nothing calls them.
ghost use Rattle.amreplay.specs.Commands.Laws.{EmptyIsSilent};

/// Says that an empty line prints nothing, even if memory runs out. So the end of the commands
/// prints nothing if no byte follows the last line feed.
pub fn an_empty_line_prints_nothing()
    ensures { EmptyIsSilent }
{}
