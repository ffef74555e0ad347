//! A notification as JSON.
#![tactic(auto, unfolding(crate::proofs::LinesLemmas::ObjectTexts::object_texts))]

use crate::lines::json_text::{ToJson, push, push_array};
use amr_engine::state::{FiringAlert, Notification, ResolvedAlert};
use std::alloc::AllocError;

impl ToJson for Notification {
    ghost use Rattle.amreplay.specs.Lines.Printed.{notification_data};

    ghost json = { notification_data };

    fn push_json(&self, out: &mut String) -> Result<(), AllocError> {
        let key = &self.key;
        push(out, "{\"at\":", &self.at)?;
        push_array(out, ",\"firing\":", self.firing.as_slice())?;
        push(out, ",\"groupLabels\":", &key.group)?;
        push(out, ",\"integration\":", &key.kind)?;
        push(out, ",\"place\":", &key.place)?;
        push(out, ",\"receiver\":", &key.receiver)?;
        push_array(out, ",\"resolved\":", self.resolved.as_slice())?;
        push(out, ",\"route\":", &self.route)?;
        out.push_str("}")
    }
}

impl ToJson for FiringAlert {
    ghost use Rattle.amreplay.specs.Lines.Printed.{firing_data};

    ghost json = { firing_data };

    fn push_json(&self, out: &mut String) -> Result<(), AllocError> {
        push(out, "{\"annotations\":", &self.annotations)?;
        push(out, ",\"labels\":", &self.labels)?;
        push(out, ",\"startsAt\":", &self.starts_at)?;
        out.push_str("}")
    }
}

impl ToJson for ResolvedAlert {
    ghost use Rattle.amreplay.specs.Lines.Printed.{resolved_data};

    ghost json = { resolved_data };

    fn push_json(&self, out: &mut String) -> Result<(), AllocError> {
        push(out, "{\"annotations\":", &self.annotations)?;
        push(out, ",\"endsAt\":", &self.ends_at)?;
        push(out, ",\"labels\":", &self.labels)?;
        push(out, ",\"startsAt\":", &self.starts_at)?;
        out.push_str("}")
    }
}
