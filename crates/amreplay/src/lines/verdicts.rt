//! The lines of `explain`: why an alert was or wasn't in a notification. The verdicts are found in
//! `amr_engine`. Members are in the order of their names, so part of a finding comes before the
//! integration, and part of it after the route. Each member but the last has a comma after it.
#![tactic(auto, unfolding(crate::proofs::LinesLemmas::ObjectTexts::object_texts))]

ghost use Rattle.std.specs.Prelude.{◌≡◌, ◌++◌, codes, IfOk, OnOk, string_bytes};
ghost use Rattle.std.specs.List.{flat_map};
ghost use Rattle.serde_json.specs.Written.{compact_text};
ghost use Rattle.amr_engine.specs.declared.verdict.Verdict.TheVariants.{AtRoute};
ghost use Rattle.amreplay.specs.Lines.Verdicts.{finding_name as name_of_finding, integration_members, members_before, members_after, with_commas, verdict_data, verdict_line};

use crate::lines::json_text::{ToJson, lines_text, push};
use amr_engine::{Finding, Verdict};
use amr_labels::Text;
use std::alloc::{AllocError, Global};

/// Returns the lines of verdicts.
pub fn verdicts_text(alloc: Global, verdicts: &[Verdict]) -> Result<String, AllocError>
    ensures { IfOk result (λ text. string_bytes text ≡ flat_map verdict_line verdicts.now) }
{
    lines_text(alloc, verdicts)
}

impl ToJson for Verdict {
    ghost use Rattle.amreplay.specs.Lines.Verdicts.{verdict_data};

    ghost json = { verdict_data };

    fn push_json(&self, out: &mut String) -> Result<(), AllocError> {
        match self {
            Verdict::Unknown => out.push_str("{\"verdict\":\"Unknown\"}"),
            Verdict::Ended => out.push_str("{\"verdict\":\"Ended\"}"),
            Verdict::AtRoute {
                route,
                receiver,
                integration,
                finding,
            } => push_at_route(out, *route, receiver, integration, finding),
        }
    }
}

/// Appends a finding at a route.
fn push_at_route(
    out: &mut String,
    route: usize,
    receiver: &Text,
    integration: &Option<(Text, usize)>,
    finding: &Finding,
) -> Result<(), AllocError>
    ensures { OnOk result (string_bytes out.new ≡ string_bytes out.old
        ++ compact_text (verdict_data (AtRoute route receiver.now integration.now finding.now))) }
{
    out.push_str("{")?;
    push_before_integration(out, finding)?;
    push_integration(out, integration)?;
    push_with_comma(out, "\"receiver\":", receiver)?;
    push_with_comma(out, "\"route\":", &route)?;
    push_after_route(out, finding)?;
    push(out, "\"verdict\":", &finding_name(finding))?;
    out.push_str("}")
}

/// Appends what a finding has under names that come before `integration`.
fn push_before_integration(out: &mut String, finding: &Finding) -> Result<(), AllocError>
    ensures { OnOk result (string_bytes out.new
        ≡ string_bytes out.old ++ with_commas (members_before finding.now)) }
{
    match finding {
        Finding::Waiting { due } => push_with_comma(out, "\"due\":", due),
        Finding::Inhibited { rule: _, source: _ } => Ok(()),
        Finding::OutsideActive => Ok(()),
        Finding::TimeMuted => Ok(()),
        Finding::Silenced { id } => push_with_comma(out, "\"id\":", id),
        Finding::Nowhere => Ok(()),
        Finding::Told { at } => push_with_comma(out, "\"at\":", at),
        Finding::Due { at } => push_with_comma(out, "\"at\":", at),
    }
}

/// Appends an integration, if there is one, by its kind and its index.
fn push_integration(out: &mut String, integration: &Option<(Text, usize)>) -> Result<(), AllocError>
    ensures { OnOk result (string_bytes out.new
        ≡ string_bytes out.old ++ with_commas (integration_members integration.now)) }
{
    match integration {
        None => Ok(()),
        Some(integration) => {
            push(out, "\"integration\":", &integration.0)?;
            push_with_comma(out, ",\"place\":", &integration.1)
        }
    }
}

/// Appends what a finding has under names that come after `route`.
fn push_after_route(out: &mut String, finding: &Finding) -> Result<(), AllocError>
    ensures { OnOk result (string_bytes out.new
        ≡ string_bytes out.old ++ with_commas (members_after finding.now)) }
{
    match finding {
        Finding::Waiting { due: _ } => Ok(()),
        Finding::Inhibited { rule, source } => {
            push(out, "\"rule\":", rule)?;
            push_with_comma(out, ",\"source\":", source)
        }
        Finding::OutsideActive => Ok(()),
        Finding::TimeMuted => Ok(()),
        Finding::Silenced { id: _ } => Ok(()),
        Finding::Nowhere => Ok(()),
        Finding::Told { at: _ } => Ok(()),
        Finding::Due { at: _ } => Ok(()),
    }
}

/// Appends a literal, a value after it, and a comma.
fn push_with_comma<T: ToJson>(out: &mut String, before: &str, value: &T) -> Result<(), AllocError>
    ensures { OnOk result (string_bytes out.new ≡ string_bytes out.old
        ++ (before.now ++ (compact_text (T.json value.now) ++ codes ","))) }
{
    push(out, before, value)?;
    out.push(',')
}

/// Returns the printed name of a finding.
fn finding_name(finding: &Finding) -> &'static str
    ensures { result.now ≡ name_of_finding finding.now }
{
    match finding {
        Finding::Waiting { due: _ } => "Waiting",
        Finding::Inhibited { rule: _, source: _ } => "Inhibited",
        Finding::OutsideActive => "OutsideActive",
        Finding::TimeMuted => "TimeMuted",
        Finding::Silenced { id: _ } => "Silenced",
        Finding::Nowhere => "Nowhere",
        Finding::Told { at: _ } => "Told",
        Finding::Due { at: _ } => "Due",
    }
}
