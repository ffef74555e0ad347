//! Reloading the configuration. As in Alertmanager, groups don't survive a reload; alerts, silences
//! and the notification log do.
ghost use Rattle.std.specs.Prelude.{◌≡◌, ◌*◌, OnOk};
ghost use Rattle.std.specs.List.{fold};
ghost use Rattle.amr_engine.specs.State.State.{insert_into_groups};
ghost use Rattle.amr_engine.specs.State.Kept.{GrownBy, before_open_record};
ghost use Rattle.amr_engine.specs.Events.{with_config};
ghost use Rattle.amr_engine.specs.Weight.{copies, reload_entries};

use crate::state::{Store, insert_into_groups, views};
use amr_config::Config;
use amr_labels::{Labels, Shared};
use amr_rules::Alert;
use std::alloc::AllocError;

/// Replaces the configuration, drops all groups, and inserts every stored alert, resolved ones too,
/// into groups of the new routing tree.
#[tactic(auto, unfolding(crate::specs::Events::with_config))]
pub(crate) fn reload(store: &mut Store, config: Config) -> Result<(), AllocError>
    ensures ok { OnOk result (store.new.state ≡ with_config store.old.state config) }
    ensures kept { before_open_record store.new ≡ before_open_record store.old }
    ensures grown { OnOk result (GrownBy (reload_entries store.new.state) store.old store.new) }
{
    let alerts = views::alerts(store)?;
    store.replace_config(config)?;
    insert_all(store, alerts.as_slice())
}

/// Inserts alerts into the groups of their chosen routes, in order.
fn insert_all(store: &mut Store, alerts: &[(Labels, Shared<Alert>)]) -> Result<(), AllocError>
    ensures ok { OnOk result (store.new.state
        ≡ fold insert_into_groups store.old.state alerts.now) }
    ensures kept { before_open_record store.new ≡ before_open_record store.old }
    ensures grown { GrownBy (2 * copies store.old.state.config alerts.now) store.old store.new }
{
    for (labels, alert) in alerts {
        insert_into_groups(store, labels, alert)?;
    }
    Ok(())
}
