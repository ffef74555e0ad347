//! Reading a posted alert from the tokens of a line, as `posted.rt` reads one from a JSON value.
//! Each function returns `None` for a shape that is left to `posted.rt`.
ghost use Rattle.std.specs.Prelude.{◌≡◌, ◌∷◌, ◌<◌, ◌≤◌, ℕ, true, Some, None, length, IfOk, IfSome, codes};
ghost use Rattle.json.specs.Token as token;
ghost use Rattle.json.specs.Json.{read_key};
ghost use Rattle.amr_events.specs.Shapes.{texts_in};
ghost use Rattle.serde_json.specs.Data.{object, Members};
ghost use Rattle.amr_config.specs.Read.Members.{unless_null};
ghost use Rattle.amr_events.specs.Posted.{alert_of, time_at};
ghost use Rattle.amr_events.specs.Tokens.{States, IsDraft, Adds, IsAfter};
ghost use Rattle.amr_labels.specs.Lent.{lent_texts};

use crate::posted::time_of;
use crate::posts::{PostedAlert, PostedLabels, PostedTime};
use crate::text_cache::TextCache;
use amr_labels::TextMap;
use amr_time::Moment;
use json::{Reader, Token};
use std::alloc::{AllocError, Global};

/// How many names and texts an object of texts mostly has at most.
const USUAL_TEXTS: usize = 8;

/// What was read of a posted alert so far.
#[derive(Drop)]
struct Draft {
    labels: Option<PostedLabels>,
    annotations: TextMap,
    starts_at: Option<Moment>,
    ends_at: Option<Moment>,
}

impl Draft {
    /// Returns a draft with these annotations and nothing else.
    fn new(annotations: TextMap) -> Draft
        ensures { result ≡ record {
          labels = None;
          annotations = annotations;
          starts_at = None;
          ends_at = None;
        } }
    {
        Draft {
            labels: None,
            annotations,
            starts_at: None,
            ends_at: None,
        }
    }

    /// Returns the draft with these labels.
    fn with_labels(self, labels: PostedLabels) -> Draft
        ensures { result ≡ record self { labels = Some labels } }
    {
        Draft {
            labels: Some(labels),
            annotations: self.annotations,
            starts_at: self.starts_at,
            ends_at: self.ends_at,
        }
    }

    /// Returns the draft with these annotations.
    fn with_annotations(self, annotations: TextMap) -> Draft
        ensures { result ≡ record self { annotations = annotations } }
    {
        Draft {
            labels: self.labels,
            annotations,
            starts_at: self.starts_at,
            ends_at: self.ends_at,
        }
    }

    /// Returns the draft with this start.
    fn with_start(self, starts_at: Option<Moment>) -> Draft
        ensures { result ≡ record self { starts_at = starts_at } }
    {
        Draft {
            labels: self.labels,
            annotations: self.annotations,
            starts_at,
            ends_at: self.ends_at,
        }
    }

    /// Returns the draft with this end.
    fn with_end(self, ends_at: Option<Moment>) -> Draft
        ensures { result ≡ record self { ends_at = ends_at } }
    {
        Draft {
            labels: self.labels,
            annotations: self.annotations,
            starts_at: self.starts_at,
            ends_at,
        }
    }

    /// Returns the alert, if its labels were read.
    #[tactic(auto, using(crate::proofs::Drafting::finished))]
    fn finish(self) -> Option<PostedAlert>
        ensures { IfSome result (λ alert. (found : Members) → IsDraft found self
            → alert_of (object found) ≡ Some alert) }
    {
        Some(PostedAlert {
            labels: self.labels?,
            annotations: self.annotations,
            starts_at: PostedTime::new(self.starts_at),
            ends_at: PostedTime::new(self.ends_at),
        })
    }
}

/// Reads a posted alert.
pub(crate) fn usual_alert(
    alloc: Global,
    cache: &mut TextCache,
    reader: &mut Reader<'_>,
) -> Result<Option<PostedAlert>, AllocError>
    ensures read { IfOk result (λ read. IfSome read (λ alert. (depth : ℕ) → 2 ≤ depth
        → States (λ d. alert_of d ≡ Some alert) depth reader.old reader.new)) }
    ensures shorter { IfOk result (λ read. IfSome read (λ _.
        length reader.new < length reader.old)) }
{
    if !opens_object(reader) {
        return Ok(None);
    }
    let mut draft = Draft::new(cache.no_texts(alloc)?);
    loop {
        match reader.next_key() {
            Err(_) => return Ok(None),
            Ok(None) => return Ok(draft.finish()),
            Ok(Some(key)) => match read_member(alloc, cache, reader, key, draft)? {
                Some(more) => draft = more,
                None => return Ok(None),
            },
        }
    }
}

/// Reads the member of an alert under a key, and returns the draft with it.
fn read_member(
    alloc: Global,
    cache: &mut TextCache,
    reader: &mut Reader<'_>,
    key: &str,
    draft: Draft,
) -> Result<Option<Draft>, AllocError>
    ensures added { IfOk result (λ read. IfSome read (λ after.
        Adds key.now draft after reader.old reader.new)) }
    ensures shorter { IfOk result (λ read. IfSome read (λ _.
        length reader.new < length reader.old)) }
{
    match key {
        "labels" => read_labels(alloc, cache, reader, draft),
        "annotations" => read_annotations(alloc, cache, reader, draft),
        "startsAt" => Ok(read_start(reader, draft)),
        "endsAt" => Ok(read_end(reader, draft)),
        _ => Ok(None),
    }
}

/// Reads the labels of an alert.
fn read_labels(
    alloc: Global,
    cache: &mut TextCache,
    reader: &mut Reader<'_>,
    draft: Draft,
) -> Result<Option<Draft>, AllocError>
    ensures added { IfOk result (λ read. IfSome read (λ after.
        Adds (codes "labels") draft after reader.old reader.new)) }
    ensures shorter { IfOk result (λ read. IfSome read (λ _.
        length reader.new < length reader.old)) }
{
    match usual_texts(alloc, reader)? {
        Some(texts) => {
            let labels = cache.labels_of(alloc, texts.as_slice())?;
            Ok(Some(draft.with_labels(labels)))
        }
        None => Ok(None),
    }
}

/// Reads the annotations of an alert.
fn read_annotations(
    alloc: Global,
    cache: &mut TextCache,
    reader: &mut Reader<'_>,
    draft: Draft,
) -> Result<Option<Draft>, AllocError>
    ensures added { IfOk result (λ read. IfSome read (λ after.
        Adds (codes "annotations") draft after reader.old reader.new)) }
    ensures shorter { IfOk result (λ read. IfSome read (λ _.
        length reader.new < length reader.old)) }
{
    match usual_texts(alloc, reader)? {
        Some(texts) => {
            let annotations = cache.annotations_of(alloc, texts.as_slice())?;
            Ok(Some(draft.with_annotations(annotations)))
        }
        None => Ok(None),
    }
}

/// Reads the start of an alert.
fn read_start(reader: &mut Reader<'_>, draft: Draft) -> Option<Draft>
    ensures added { IfSome result (λ after.
        Adds (codes "startsAt") draft after reader.old reader.new) }
    ensures shorter { IfSome result (λ _. length reader.new < length reader.old) }
{
    let time = usual_time(reader)?;
    Some(draft.with_start(time))
}

/// Reads the end of an alert.
fn read_end(reader: &mut Reader<'_>, draft: Draft) -> Option<Draft>
    ensures added { IfSome result (λ after.
        Adds (codes "endsAt") draft after reader.old reader.new) }
    ensures shorter { IfSome result (λ _. length reader.new < length reader.old) }
{
    let time = usual_time(reader)?;
    Some(draft.with_end(time))
}

/// Reads a time, which may be missing.
fn usual_time(reader: &mut Reader<'_>) -> Option<Option<Moment>>
    ensures read { IfSome result (λ time. (depth : ℕ)
        → States (λ d. time_at (unless_null (Some d)) ≡ Some time) depth reader.old reader.new) }
    ensures shorter { IfSome result (λ _. length reader.new < length reader.old) }
{
    match time_of(string(reader)?) {
        Ok(time) => Some(time),
        Err(_) => None,
    }
}

/// Reads an object of texts whose names ascend, each after the one before it.
fn usual_texts<'a>(
    alloc: Global,
    reader: &mut Reader<'a>,
) -> Result<Option<Vec<(&'a str, &'a str)>>, AllocError>
    ensures read { IfOk result (λ read. IfSome read (λ pairs. (depth : ℕ) → 1 ≤ depth
        → States (λ d. texts_in d ≡ Some (lent_texts pairs.items)) depth reader.old reader.new)) }
    ensures shorter { IfOk result (λ read. IfSome read (λ _.
        length reader.new < length reader.old)) }
{
    if !opens_object(reader) {
        return Ok(None);
    }
    let mut texts = Vec::with_capacity(alloc, USUAL_TEXTS)?;
    loop {
        match reader.next_key() {
            Err(_) => return Ok(None),
            Ok(None) => return Ok(Some(texts)),
            Ok(Some(name)) => {
                let Some(text) = string(reader) else {
                    return Ok(None);
                };
                if !is_after(name, texts.as_slice()) {
                    return Ok(None);
                }
                texts.push((name, text))?;
            }
        }
    }
}

/// Returns whether a name is after the last of these.
fn is_after(name: &str, texts: &[(&str, &str)]) -> bool
    ensures { result ≡ true → IsAfter name.now (lent_texts texts.now) }
{
    match texts.last() {
        Some((last, _)) => *last < name,
        None => true,
    }
}

/// Takes the brace that opens an object. Returns whether it comes next.
pub(crate) fn opens_object(reader: &mut Reader<'_>) -> bool
    ensures { result ≡ true → reader.old ≡ token.begin_object ∷ reader.new }
{
    matches!(reader.next(), Some(Token::BeginObject))
}

/// Takes the bracket that opens an array. Returns whether it comes next.
pub(crate) fn opens_array(reader: &mut Reader<'_>) -> bool
    ensures { result ≡ true → reader.old ≡ token.begin_array ∷ reader.new }
{
    matches!(reader.next(), Some(Token::BeginArray))
}

/// Takes a key. Returns whether it is this one.
pub(crate) fn has_key(reader: &mut Reader<'_>, key: &str) -> bool
    ensures { result ≡ true → read_key reader.old ≡ Some (Some key.now, reader.new) }
{
    match reader.next_key() {
        Ok(Some(found)) => found == key,
        _ => false,
    }
}

/// Takes the brace that closes an object. Returns whether it comes next.
pub(crate) fn closes_object(reader: &mut Reader<'_>) -> bool
    ensures { result ≡ true → read_key reader.old ≡ Some (None, reader.new) }
{
    matches!(reader.next_key(), Ok(None))
}

/// Takes a text, if it comes next.
pub(crate) fn string<'a>(reader: &mut Reader<'a>) -> Option<&'a str>
    ensures { IfSome result (λ text. reader.old ≡ token.string text.now ∷ reader.new) }
{
    match reader.next() {
        Some(Token::String(text)) => Some(text),
        _ => None,
    }
}
