ghost use Rattle.std.specs.Prelude.{◌≡◌, find, option_copied};
ghost use Rattle.dn_property.specs.Hours.{is_due, is_open, is_stale};
ghost use Rattle.dn_property.specs.Rules.{allow_in, allow_of, data_of, has_id, number_or, rules_of};

use crate::Property;
use crate::ids::{
    AGING_ENABLED_TIME, AGING_STATE, ALLOW_UPDATE, NOREFRESH_INTERVAL, REFRESH_INTERVAL,
};
use crate::number::number_in;

// In this project's profile both intervals in hours, where the zone has none of its own: a week.
const DEFAULT_INTERVAL: u32 = 168;

/// What a zone's properties say of updates and of aging (MS-DNSP 2.3.2.1.1).
#[derive(Clone, Copy, Debug, PartialEq, Eq)]
pub struct ZoneRules {
    /// Which dynamic updates are taken: 0 none, 1 all, 2 secure ones alone.
    pub allow: u8,
    /// Whether records age.
    pub aging: bool,
    /// For how many hours after its time stamp a record isn't refreshed.
    pub norefresh: u32,
    /// For how many hours after that it may be refreshed before it is stale.
    pub refresh: u32,
    /// From which hour on stale records are removed, in hours since 1601-01-01 00:00 UTC.
    pub available: u32,
}

fn first_of(id: u32, list: &[Property]) -> Option<&Property>
    ensures { option_copied result ≡ find (has_id id) list.now }
{
    list.iter().find(|item| item.id == id)
}

fn data_of(id: u32, list: &[Property]) -> Option<&[u8]>
    ensures { option_copied result ≡ data_of id list.now }
{
    Some(first_of(id, list)?.content.as_slice())
}

fn number_or(default: u32, id: u32, list: &[Property]) -> u32
    ensures { result ≡ number_or default id list.now }
{
    data_of(id, list).and_then(number_in).unwrap_or(default)
}

// Which updates the data says: in this project's profile one byte or four, and a number that isn't known allows none.
fn allow_in(content: &[u8]) -> u8
    ensures { result ≡ allow_in content.now }
{
    let number = match content {
        [byte] => u32::from(*byte),
        _ => number_in(content).unwrap_or(0),
    };
    match number {
        1 => 1,
        2 => 2,
        _ => 0,
    }
}

fn allow_of(list: &[Property]) -> u8
    ensures { result ≡ allow_of list.now }
{
    match data_of(ALLOW_UPDATE, list) {
        Some(content) => allow_in(content),
        None => 0,
    }
}

/// The rules that a zone's properties give (MS-DNSP 2.3.2.1.1). In this project's profile the first of several properties of
/// one id counts, data of a length that isn't its property's counts as if the property weren't there, ALLOW_UPDATE has one
/// byte or four, and the defaults are no updates, no aging, both intervals 168 hours, and removal from hour 0 on.
pub fn rules_of(list: &[Property]) -> ZoneRules
    ensures { result ≡ rules_of list.now }
{
    ZoneRules {
        allow: allow_of(list),
        aging: number_or(0, AGING_STATE, list) != 0,
        norefresh: number_or(DEFAULT_INTERVAL, NOREFRESH_INTERVAL, list),
        refresh: number_or(DEFAULT_INTERVAL, REFRESH_INTERVAL, list),
        available: number_or(0, AGING_ENABLED_TIME, list),
    }
}

/// Whether stale records of the zone are removed at an hour.
pub fn is_due(rules: &ZoneRules, hour: u32) -> bool
    ensures { result ≡ is_due rules.now hour }
{
    rules.aging && rules.available <= hour
}

/// Whether a record of this time stamp, in hours, is stale at an hour: it was neither made nor refreshed for both
/// intervals. A time stamp of 0 never is.
pub fn is_stale(stamp_hour: u32, rules: &ZoneRules, hour: u32) -> bool
    ensures { result ≡ is_stale stamp_hour rules.now hour }
{
    let until = u64::from(stamp_hour) + u64::from(rules.norefresh) + u64::from(rules.refresh);
    stamp_hour != 0 && until <= u64::from(hour)
}

/// Whether a refresh of a record of this time stamp is written at an hour: records age, and the interval without refresh
/// is over. A record with a time stamp of 0 is never refreshed.
pub fn refresh_allowed(stamp_hour: u32, rules: &ZoneRules, hour: u32) -> bool
    ensures { result ≡ is_open stamp_hour rules.now hour }
{
    let until = u64::from(stamp_hour) + u64::from(rules.norefresh);
    rules.aging && stamp_hour != 0 && until <= u64::from(hour)
}
