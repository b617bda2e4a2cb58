ghost use Rattle.std.specs.Prelude.{[], ◌∷◌, IfOk};
ghost use Rattle.dn_update.specs.Writes.{written};
ghost use Rattle.dn_zone.specs.Zone.{add_wanted, admin_step, set_step, with_table};
ghost use Rattle.dn_zone.specs.Zone.Preparing.{Prepares};

use crate::event::{AdminCmd, AdminDone, Answer};
use crate::settings::{all_set, settings_of, with_settings};
use crate::zone::{Prepared, Zone};
use dn_io::{Moment, OutOfMemory};
use dn_name::Name;
use dn_property::rules_of;
use dn_rdata::Record;
use dn_store::{UnitKey, UnitValue, properties_of, rows_at};
use dn_update::{Limit, Plan, plan_value, with_added};
use std::alloc::Global;

impl Zone {
    // Writes one value, where it passes no limit.
    fn write(
        &self,
        alloc: Global,
        key: UnitKey,
        value: UnitValue,
        moment: Moment,
    ) -> Result<Prepared, OutOfMemory>
        ensures { IfOk result (λ made. Prepares made self.now (with_table self.now (written (record { key = key; value = value } ∷ []) self.now.id moment self.now.table))) }
    {
        match plan_value(alloc, &self.table, key, value, moment, self.id)? {
            Plan::Limit(limit) => Ok(Prepared::Same(Answer::Refused(limit))),
            Plan::Writes(writes) => {
                let units = writes.len() as u64;
                let after = self.after(alloc, &writes, self.pass)?;
                Ok(Prepared::Became(after, Answer::Admin(AdminDone::Written { units })))
            }
        }
    }

    // Adds a record at a name.
    #[tactic(auto, unfolding(crate::specs::Zone::add_wanted, dn_update::specs::Writes::node_change))]
    fn add(
        &self,
        alloc: Global,
        name: &Name,
        row: Record,
        moment: Moment,
    ) -> Result<Prepared, OutOfMemory>
        ensures { IfOk result (λ made. Prepares made self.now (with_table self.now (written (add_wanted self.now name.now row moment) self.now.id moment self.now.table))) }
    {
        let key = UnitKey::Node(name.lower());
        match with_added(alloc, row, rows_at(self.table(), &key))? {
            None => Ok(Prepared::Same(Answer::Admin(AdminDone::Unchanged))),
            Some(rows) => self.write(alloc, key, UnitValue::Live(rows), moment),
        }
    }

    // Sets what a command of aging says, where it isn't so already.
    #[tactic(auto, unfolding(crate::specs::Zone::set_step, crate::specs::Zone::settings_wanted))]
    fn set(&self, alloc: Global, cmd: &AdminCmd, moment: Moment) -> Result<Prepared, OutOfMemory>
        ensures { IfOk result (λ made. Prepares made self.now (set_step self.now cmd.now moment)) }
    {
        let list = properties_of(self.table());
        let rules = rules_of(list);
        let settings = settings_of(alloc, cmd, &rules, moment.hour())?;
        if all_set(&rules, settings.as_slice()) {
            return Ok(Prepared::Same(Answer::Admin(AdminDone::Unchanged)));
        }
        let after = with_settings(alloc, settings.as_slice(), list)?;
        self.write(alloc, UnitKey::Props, UnitValue::Props(after), moment)
    }

    // What a command of administration makes of the zone.
    #[tactic(auto, unfolding(crate::specs::Zone::admin_step))]
    pub(crate) fn admin(
        &self,
        alloc: Global,
        cmd: &AdminCmd,
        moment: Moment,
    ) -> Result<Prepared, OutOfMemory>
        ensures { IfOk result (λ made. Prepares made self.now (admin_step self.now cmd.now moment)) }
    {
        let AdminCmd::Add {
            name,
            ttl,
            rtype,
            rdata,
            hour,
        } = cmd
        else {
            return self.set(alloc, cmd, moment);
        };
        if !name.is_under(&self.apex) {
            return Ok(Prepared::Same(Answer::Admin(AdminDone::NotInZone)));
        }
        let row = Record::with_any_data(alloc, *rtype, *ttl, *hour, rdata.as_slice())?;
        self.add(alloc, name, row, moment)
    }
}
