//! Laws of moments, durations and their texts, as functions that do nothing: their contracts are
//! the laws. Nothing calls them.
ghost use Rattle.std.specs.Prelude.{ℕ, ◌<◌};
ghost use Rattle.amr_time.specs.Time.{IsNextMultiple, next_multiple_of};
ghost use Rattle.amr_time.specs.Laws.{ReadIsSpelled, SpelledIsRead, WrittenIsSpelled, WrittenIsRead};
ghost use Rattle.amr_time.specs.SpanText.{ReadSpanIsSpelled, SpelledSpanIsRead};

/// Says that `next_multiple` returns a multiple of the unit that is greater than the moment, and
/// that there is none between.
pub fn next_multiple_is_the_least()
    ensures { (m unit : ℕ) → 0 < unit → IsNextMultiple m unit (next_multiple_of m unit) }
{}

/// Says that a text that is read as a moment spells an existing date, a time of day and an offset,
/// and that their nanoseconds are the moment.
#[tactic(auto, using(crate::proofs::Takes::read_is_spelled))]
pub fn what_is_read_is_spelled()
    ensures { ReadIsSpelled }
{}

/// Says that a text that spells an existing date, a time of day and an offset, from 1970 to 8999,
/// is read as their nanoseconds.
pub fn what_is_spelled_is_read()
    ensures { SpelledIsRead }
{}

/// Says that the text of a moment spells an existing date and a time of day in UTC, and that their
/// nanoseconds are the moment.
#[tactic(auto, using(crate::proofs::Written::written_is_spelled))]
pub fn what_is_written_is_spelled()
    ensures { WrittenIsSpelled }
{}

/// Says that the text of a moment is read back as the same moment.
#[tactic(auto, using(crate::proofs::Written::written_is_read))]
pub fn what_is_written_is_read()
    ensures { WrittenIsRead }
{}

/// Says that a text that is read as a duration is `0` or spells amounts of the units, and that
/// their sum is the duration.
#[tactic(auto, using(crate::proofs::SpanTexts::read_span_is_spelled))]
pub fn what_is_read_as_a_span_is_spelled()
    ensures { ReadSpanIsSpelled }
{}

/// Says that a text that is `0`, or spells amounts of the units, at most ten years together, is
/// read as their sum.
pub fn what_is_spelled_as_a_span_is_read()
    ensures { SpelledSpanIsRead }
{}
