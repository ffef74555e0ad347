//! What listings print, as JSON: alerts, silences, groups, and entries of the notification log.
//! Names are those of Alertmanager's API v2, if it has them.
#![tactic(auto, unfolding(crate::proofs::LinesLemmas::ObjectTexts::object_texts))]

ghost use Rattle.std.specs.Prelude.{◌≡◌};
ghost use Rattle.amreplay.specs.Lines.Printed.{is_equal as means_equal, is_regex as takes_regex};

use crate::lines::json_text::{ToJson, push, push_array};
use amr_engine::state::{Group, LogKey};
use amr_events::posts::SilenceId;
use amr_labels::matcher::{Matcher, Matchers, Operator};
use amr_labels::{Labels, Shared};
use amr_rules::{Alert, LogEntry, Silence};
use std::alloc::AllocError;

impl ToJson for (&Labels, &Shared<Alert>) {
    ghost use Rattle.amreplay.specs.Lines.Printed.{alert_data};

    ghost json = { λ row. alert_data (row.0.now, row.1.now) };

    fn push_json(&self, out: &mut String) -> Result<(), AllocError> {
        let (labels, alert) = *self;
        let alert = alert.get();
        push(out, "{\"annotations\":", &alert.annotations)?;
        push(out, ",\"endsAt\":", &alert.ends_at)?;
        push(out, ",\"labels\":", labels)?;
        push(out, ",\"startsAt\":", &alert.starts_at)?;
        push(out, ",\"timeout\":", &alert.timed_out)?;
        push(out, ",\"updatedAt\":", &alert.last_post)?;
        out.push_str("}")
    }
}

impl ToJson for (&SilenceId, &Silence) {
    ghost use Rattle.amreplay.specs.Lines.Printed.{silence_data};

    ghost json = { λ row. silence_data (row.0.now, row.1.now) };

    fn push_json(&self, out: &mut String) -> Result<(), AllocError> {
        let (id, silence) = *self;
        push(out, "{\"endsAt\":", &silence.ends_at)?;
        push(out, ",\"id\":", id)?;
        push(out, ",\"matchers\":", &silence.matchers)?;
        push(out, ",\"startsAt\":", &silence.starts_at)?;
        out.push_str("}")
    }
}

impl ToJson for Group {
    ghost use Rattle.amreplay.specs.Lines.Printed.{group_data};

    ghost json = { group_data };

    fn push_json(&self, out: &mut String) -> Result<(), AllocError> {
        push(out, "{\"emptySince\":", &self.empty_since)?;
        push(out, ",\"flushed\":", &self.flushed)?;
        push(out, ",\"groupLabels\":", &self.labels)?;
        push_array(out, ",\"members\":", self.members.as_slice())?;
        push(out, ",\"nextFlush\":", &self.next_flush)?;
        push(out, ",\"route\":", &self.route)?;
        out.push_str("}")
    }
}

impl ToJson for (&LogKey, &Shared<LogEntry>) {
    ghost use Rattle.amreplay.specs.Lines.Printed.{log_data};

    ghost json = { λ row. log_data (row.0.now, row.1.now) };

    fn push_json(&self, out: &mut String) -> Result<(), AllocError> {
        let (key, entry) = *self;
        let entry = entry.get();
        push(out, "{\"at\":", &entry.time)?;
        push(out, ",\"firing\":", &entry.firing)?;
        push(out, ",\"groupLabels\":", &key.group)?;
        push(out, ",\"integration\":", &key.kind)?;
        push_array(out, ",\"path\":", key.path.get().as_slice())?;
        push(out, ",\"place\":", &key.place)?;
        push(out, ",\"receiver\":", &key.receiver)?;
        push(out, ",\"resolved\":", &entry.resolved)?;
        out.push_str("}")
    }
}

impl ToJson for Matchers {
    ghost use Rattle.amreplay.specs.Lines.Printed.{matchers_data};

    ghost json = { matchers_data };

    fn push_json(&self, out: &mut String) -> Result<(), AllocError> {
        push_array(out, "", self.as_slice())
    }
}

impl ToJson for Matcher {
    ghost use Rattle.amreplay.specs.Lines.Printed.{matcher_data};

    ghost json = { matcher_data };

    fn push_json(&self, out: &mut String) -> Result<(), AllocError> {
        push(out, "{\"isEqual\":", &is_equal(self))?;
        push(out, ",\"isRegex\":", &is_regex(self))?;
        push(out, ",\"name\":", self.name())?;
        push(out, ",\"value\":", self.value())?;
        out.push_str("}")
    }
}

/// Returns whether the matcher's operator is `=` or `=~` (`isEqual` of the API).
fn is_equal(matcher: &Matcher) -> bool
    ensures { result ≡ means_equal matcher.now.operator }
{
    matches!(matcher.operator(), Operator::Equal | Operator::Matches)
}

/// Returns whether the matcher's operator takes a pattern (`isRegex` of the API).
fn is_regex(matcher: &Matcher) -> bool
    ensures { result ≡ takes_regex matcher.now.operator }
{
    matches!(matcher.operator(), Operator::Matches | Operator::NotMatches)
}
