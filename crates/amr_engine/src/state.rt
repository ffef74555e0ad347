//! The state of the replayed Alertmanager: stored alerts, groups and their members, silences, the
//! notification log and the notifications, with the journal that undoes events. The engine changes
//! it through `Store` and lists it through `views`. Of the rules, only when a timer is due (`due.rt`)
//! and how an alert joins its groups (`inserting.rt`) are here.

mod alert_table;
mod change;
mod due;
mod entering;
mod group_timers;
mod inserting;
mod keys;
mod members;
mod notification;
mod pending;
mod roster;
mod store;
mod tables;
pub mod views;

pub use change::Change;
pub use due::{Due, Timer};
pub(crate) use inserting::insert_into_each;
pub use inserting::insert_into_groups;
pub use keys::{group_key, member_key};
pub use members::Member;
pub use notification::{FiringAlert, GroupTimer, LogKey, Notification, ResolvedAlert};
pub use store::Store;
pub use views::Group;
