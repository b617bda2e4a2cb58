ghost use Rattle.std.specs.Prelude.{◌≡◌, ◌++◌, filter, nat_lt, IfOk, OnOk};
ghost use Rattle.dn_property.specs.Rules.{rules_of};
ghost use Rattle.dn_zone.specs.Settings.{all_set, is_set, property_id, wanted_number, property, settings_of, with_property, with_setting, with_settings};

use crate::event::AdminCmd;
use dn_io::{Duplicate, List, OutOfMemory};
use dn_property::{Property, ZoneRules, ids, rules_of};
use std::alloc::Global;

// What a command sets in a zone's property list.
#[derive(Clone, Copy)]
pub enum Setting {
    /// The interval without refresh, in hours.
    NoRefresh(u32),
    /// The hour from which on stale records are removed.
    Available(u32),
    /// The interval in which a record may be refreshed, in hours.
    Refresh(u32),
    /// Whether records age.
    Aging(bool),
}

impl Setting {
    // The id of its property (MS-DNSP 2.3.2.1.1).
    fn id(&self) -> u32
        ensures { result ≡ property_id self.now }
    {
        match self {
            Setting::NoRefresh(_) => ids::NOREFRESH_INTERVAL,
            Setting::Available(_) => ids::AGING_ENABLED_TIME,
            Setting::Refresh(_) => ids::REFRESH_INTERVAL,
            Setting::Aging(_) => ids::AGING_STATE,
        }
    }

    fn number(&self) -> u32
        ensures { result ≡ wanted_number self.now }
    {
        match self {
            Setting::NoRefresh(hours) | Setting::Refresh(hours) => *hours,
            Setting::Available(hour) => *hour,
            Setting::Aging(on) => u32::from(*on),
        }
    }

    // Whether the rules are as it wants them.
    fn is_set(&self, rules: &ZoneRules) -> bool
        ensures { result ≡ is_set rules.now self.now }
    {
        match self {
            Setting::NoRefresh(hours) => rules.norefresh == *hours,
            Setting::Available(hour) => rules.available == *hour,
            Setting::Refresh(hours) => rules.refresh == *hours,
            Setting::Aging(on) => rules.aging == *on,
        }
    }
}

// A property as a server makes it.
#[tactic(auto, unfolding(crate::specs::Settings::property))]
pub fn property(alloc: Global, id: u32, content: &[u8]) -> Result<Property, OutOfMemory>
    ensures { IfOk result (λ item. item ≡ property id content.now) }
{
    Ok(Property {
        name_length: 1,
        flag: 0,
        id,
        content: List::from_slice(alloc, content)?,
        tail: List::from_slice(alloc, &[0])?,
    })
}

// Adds copies of the properties with a smaller id.
fn push_below(
    alloc: Global,
    out: &mut List<Property>,
    id: u32,
    list: &[Property],
) -> Result<(), OutOfMemory>
    ensures { OnOk result (out.new ≡ out.old ++ filter (λ other. nat_lt other.id id) list.now) }
{
    for other in list {
        if other.id < id {
            out.push(other.copy(alloc)?)?;
        }
    }
    Ok(())
}

// Adds copies of the properties with a greater id.
fn push_above(
    alloc: Global,
    out: &mut List<Property>,
    id: u32,
    list: &[Property],
) -> Result<(), OutOfMemory>
    ensures { OnOk result (out.new ≡ out.old ++ filter (λ other. nat_lt id other.id) list.now) }
{
    for other in list {
        if id < other.id {
            out.push(other.copy(alloc)?)?;
        }
    }
    Ok(())
}

// The list with a property in its place by id, in place of those of its id.
#[tactic(auto, unfolding(crate::specs::Settings::with_property))]
fn with_property(
    alloc: Global,
    item: Property,
    list: &[Property],
) -> Result<List<Property>, OutOfMemory>
    ensures { IfOk result (λ after. after ≡ with_property item list.now) }
{
    let id = item.id;
    let mut after = List::new(alloc);
    push_below(alloc, &mut after, id, list)?;
    after.push(item)?;
    push_above(alloc, &mut after, id, list)?;
    Ok(after)
}

// The list with a property set, where it doesn't have the wanted value.
#[tactic(auto, unfolding(crate::specs::Settings::with_setting))]
fn with_setting(
    alloc: Global,
    setting: Setting,
    list: List<Property>,
) -> Result<List<Property>, OutOfMemory>
    ensures { IfOk result (λ after. after ≡ with_setting setting list) }
{
    if setting.is_set(&rules_of(list.as_slice())) {
        return Ok(list);
    }
    let item = property(alloc, setting.id(), &setting.number().to_le_bytes())?;
    with_property(alloc, item, list.as_slice())
}

// The list with properties set in turn.
#[tactic(auto, unfolding(crate::specs::Settings::with_settings))]
pub fn with_settings(
    alloc: Global,
    settings: &[Setting],
    list: &[Property],
) -> Result<List<Property>, OutOfMemory>
    ensures { IfOk result (λ after. after ≡ with_settings settings.now list.now) }
{
    let mut after = List::from_slice(alloc, list)?;
    for setting in settings {
        after = with_setting(alloc, *setting, after)?;
    }
    Ok(after)
}

// Whether the rules are as all of the settings want them.
pub fn all_set(rules: &ZoneRules, settings: &[Setting]) -> bool
    ensures { result ≡ all_set rules.now settings.now }
{
    settings.iter().all(|setting| setting.is_set(rules))
}

// What a command sets at an hour.
#[tactic(auto, unfolding(crate::specs::Settings::settings_of))]
pub fn settings_of(
    alloc: Global,
    cmd: &AdminCmd,
    rules: &ZoneRules,
    hour: u32,
) -> Result<List<Setting>, OutOfMemory>
    ensures { IfOk result (λ settings. settings ≡ settings_of cmd.now rules.now hour) }
{
    let mut settings = List::new(alloc);
    match cmd {
        AdminCmd::AgingOn => {
            if !rules.aging {
                settings.push(Setting::Available(hour.saturating_add(rules.refresh)))?;
                settings.push(Setting::Aging(true))?;
            }
        }
        AdminCmd::AgingOff => settings.push(Setting::Aging(false))?,
        AdminCmd::NoRefresh(hours) => settings.push(Setting::NoRefresh(*hours))?,
        AdminCmd::Refresh(hours) => settings.push(Setting::Refresh(*hours))?,
        AdminCmd::Add { .. } => {}
    }
    Ok(settings)
}
