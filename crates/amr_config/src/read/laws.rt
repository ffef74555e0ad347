//! Laws of configurations, as functions that do nothing: their contracts are the laws. Nothing
//! calls them.
ghost use Rattle.amr_config.specs.Read.LevelLaws.{DeepIsRefused, DeepIsAnswered};
ghost use Rattle.amr_config.specs.Read.ReadLaws.{RoutesAreInPreorder, ReadConfigsAreWhole, WhatIsReadIsStated, AnswersGoByTheFirstFault};
ghost use Rattle.amr_config.specs.Read.StatedLaws.{ReadValuesHaveOrderedKeys, IntegrationsAreInOrder};

/// States that each object in a value read from JSON text has each key once, in byte order.
#[tactic(auto, using(crate::proofs::ReadLemmas::ReadKeys::read_ordered))]
pub fn read_values_have_ordered_keys()
    ensures { ReadValuesHaveOrderedKeys }
{}

/// States that the integrations of each receiver are sorted by kind, then by index.
pub fn integrations_are_in_order()
    ensures { IntegrationsAreInOrder }
{}

/// Says that a configuration is refused with `TooDeep` exactly if a route is at level 33 or deeper.
/// The root is at level 1, and the routes below a route are one level deeper.
#[tactic(auto, using(crate::proofs::ReadLemmas::Refused::deep_is_refused))]
pub fn too_deep_is_refused()
    ensures { DeepIsRefused }
{}

/// Says the same of every answer that `load_config` may give, whichever patterns `regex` refuses.
#[tactic(auto, using(crate::proofs::ReadLemmas::Refused::deep_is_answered))]
pub fn too_deep_is_answered()
    ensures { DeepIsAnswered }
{}

/// Says that the routes of a configuration are in preorder: the parent of each but the root is the
/// route just before it, or a route above that one.
#[tactic(auto, using(crate::proofs::ReadLemmas::WholeConfigs::routes_are_in_preorder))]
pub fn routes_are_in_preorder()
    ensures { RoutesAreInPreorder }
{}

/// Says that in a configuration the first route is the root and has a receiver, each other route
/// has a parent before it, each receiver that a route names exists, no two receivers have the same
/// name, and the integrations of each are sorted by kind and then by index.
pub fn read_configs_are_whole()
    ensures { ReadConfigsAreWhole }
{}

/// Says that each part of a configuration is what the value has under its key, or the default if it
/// hasn't the key.
pub fn what_is_read_is_stated()
    ensures { WhatIsReadIsStated }
{}

/// Says which fault is answered. A value without a route that is too deep is refused with the path
/// of its first faulty value, walking through members by key in byte order and through lists in
/// order. If no value is faulty, the configuration is validated. Instead of either, the answer may
/// be a pattern before the first faulty value, if `regex` refuses it.
#[tactic(auto, using(crate::proofs::ReadLemmas::Answered::answers_go_by_the_first_fault))]
pub fn answers_go_by_the_first_fault()
    ensures { AnswersGoByTheFirstFault }
{}
