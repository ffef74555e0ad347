//! Tests of what no command of the program shows: offsets of faulty matcher texts, a refused
//! pattern, texts of errors, the last moment, copies, and label sets of names that aren't in order.
use amr_labels::matcher::{MatcherError, Matchers};
use amr_labels::{Labels, Text};
use amr_time::{Moment, Span, TimeError, next_multiple, write_moment};
use std::alloc::{AllocError, Global};
use std::test::Fail;

/// Texts that aren't matcher texts, and the byte offset of the first character that no matcher text
/// can have there.
const FAULTY: [(&str, usize); 26] = [
    ("foo", 3),
    ("a b=c", 2),
    ("{,}", 1),
    ("a=b,,", 4),
    ("\u{1c}", 1),
    (",", 0),
    ("a= ~b", 3),
    ("a==b", 2),
    ("a!b", 2),
    ("a!", 2),
    ("a=\"b\\x\"", 5),
    ("a=\"b\\7\"", 5),
    ("a=\"b\\'\"", 5),
    ("a=\"b", 4),
    ("a='b'", 2),
    ("a=`b`", 2),
    ("a=b}", 3),
    ("{a=b", 4),
    ("{a=b}c", 5),
    ("a=\"b\"c", 5),
    ("a=b\"c\"", 3),
    ("éé=é=", 7),
    ("=b", 0),
    ("\"\"=x", 1),
    ("a=b c=d", 4),
    ("c=~\"[\",,", 7),
];

fn offset_of_fault(alloc: Global, text: &str) -> Result<Option<usize>, AllocError> {
    match Matchers::parse(alloc, text) {
        Err(MatcherError::BadMatcher { at }) => Ok(Some(at)),
        Err(MatcherError::Memory) => Err(AllocError),
        _ => Ok(None),
    }
}

#[test]
fn faulty_matcher_texts_are_refused_at_their_offsets(rt: HostRuntime) -> Result<(), Fail> {
    for (text, offset) in &FAULTY {
        assert_eq!(rt; offset_of_fault(rt.alloc(), text)?, Some(*offset), "{text}");
    }
    Ok(())
}

#[test]
fn a_pattern_that_is_not_read_is_refused(rt: HostRuntime) -> Result<(), Fail> {
    let refused = matches!(
        Matchers::parse(rt.alloc(), "a=~\"(\""),
        Err(MatcherError::BadPattern)
    );
    assert!(rt; refused);
    Ok(())
}

#[test]
fn errors_say_what_is_wrong(rt: HostRuntime) -> Result<(), Fail> {
    let alloc = rt.alloc();
    let bad_time = format!(in alloc; "{}", TimeError::BadTime)?;
    assert_eq!(rt; bad_time.as_str(), "the text isn't a moment of RFC 3339");
    let bad_duration = format!(in alloc; "{}", TimeError::BadDuration)?;
    assert_eq!(rt; bad_duration.as_str(), "the text isn't a duration");
    let bad_pattern = format!(in alloc; "{}", MatcherError::BadPattern)?;
    assert_eq!(rt; bad_pattern.as_str(), "a pattern is refused");
    let bad_matcher = format!(in alloc; "{}", MatcherError::BadMatcher { at: 3 })?;
    assert_eq!(rt;
        bad_matcher.as_str(),
        "no list of matchers continues at byte 3 as the text does"
    );
    Ok(())
}

/// No event of a script can be so late.
#[test]
fn the_last_moment_is_written_and_has_a_multiple(rt: HostRuntime) -> Result<(), Fail> {
    let last = Moment::from_nanoseconds(253_402_300_799_999_999_999);
    assert_eq!(rt;
        write_moment(rt.alloc(), last)?.as_str(),
        "9999-12-31T23:59:59.999999999Z"
    );
    assert_eq!(rt;
        next_multiple(last, Span::from_seconds(30)),
        253_402_300_800_000_000_000
    );
    Ok(())
}

/// Returns the set of one label.
fn label_set(alloc: Global, name: &str) -> Result<Labels, Fail> {
    let mut pairs = Vec::new(alloc);
    pairs.push((Text::from_str(alloc, name)?, Text::from_str(alloc, "1")?))?;
    let found = Labels::of_pairs(alloc, pairs.as_slice())?;
    Ok(found.ok_or("the name is empty")?)
}

#[test]
fn a_copy_of_a_label_set_is_equal(rt: HostRuntime) -> Result<(), Fail> {
    let labels = label_set(rt.alloc(), "alertname")?;
    let copy = labels.clone()?;
    assert!(rt; copy == labels && copy.len() == 1 && copy.value_of("alertname") == "1");
    Ok(())
}

/// Names and values that aren't in order: one name is repeated, and one value is empty. The names
/// of a JSON object are in order, so no script has such a list.
const UNORDERED: [(&str, &str); 4] = [("b", "1"), ("a", "2"), ("b", "3"), ("c", "")];

/// Returns the label set of names that aren't in order.
fn unordered_labels(alloc: Global) -> Result<Labels, Fail> {
    let mut pairs = Vec::new(alloc);
    for (name, value) in &UNORDERED {
        pairs.push((Text::from_str(alloc, name)?, Text::from_str(alloc, value)?))?;
    }
    let found = Labels::of_pairs(alloc, pairs.as_slice())?;
    Ok(found.ok_or("a name is empty")?)
}

#[test]
fn of_a_repeated_name_the_last_value_counts(rt: HostRuntime) -> Result<(), Fail> {
    let labels = unordered_labels(rt.alloc())?;
    assert!(rt; labels.len() == 2 && labels.value_of("a") == "2" && labels.value_of("b") == "3");
    Ok(())
}
