ghost use Rattle.std.specs.Prelude.{◌≡◌, ◌+◌, ◌≤◌, length, IfOk, IsTrue};
ghost use Rattle.std.specs.List.{AllByRecursion};
ghost use Rattle.dn_store.specs.Table.{KeysDiffer, change_limit};
ghost use Rattle.dn_store.specs.Value.{fits};
ghost use Rattle.dn_zone.specs.Zone.{begin_step, finished, pass_step, swept_step, with_pass};
ghost use Rattle.dn_zone.specs.Zone.Preparing.{Prepares};

use crate::event::Answer;
use crate::zone::{Prepared, Zone};
use dn_io::{Duplicate, List, Moment, OutOfMemory};
use dn_pass::{Pass, StepPlan, begin, step};
use dn_store::Write;
use dn_update::Limit;
use std::alloc::Global;

impl Zone {
    // The zone with another pass, or with none. It shares the units, and copies none of them.
    fn with_pass(&self, alloc: Global, pass: Option<Pass>) -> Result<Zone, OutOfMemory>
        ensures { IfOk result (λ zone. zone ≡ with_pass self.now pass) }
    {
        Ok(Zone {
            id: self.id,
            host: self.host,
            apex: self.apex,
            table: self.table.share()?,
            cursors: self.cursors.copy(alloc)?,
            pass,
        })
    }

    // A pass begins, where none runs and the zone is due.
    #[tactic(auto, unfolding(crate::specs::Zone::begin_step))]
    pub(crate) fn begin(&self, alloc: Global, moment: Moment) -> Result<Prepared, OutOfMemory>
        ensures { IfOk result (λ made. Prepares made self.now (begin_step self.now moment)) }
    {
        if let Some(pass) = &self.pass {
            let hour = pass.moment.hour();
            return Ok(Prepared::Same(Answer::Busy { hour }));
        }
        match begin(&self.table, moment) {
            Some(pass) => {
                let after = self.with_pass(alloc, Some(pass))?;
                Ok(Prepared::Became(after, Answer::Begun))
            }
            None => Ok(Prepared::Same(Answer::NotDue)),
        }
    }

    // The zone behind a step of its pass.
    fn swept(
        &self,
        alloc: Global,
        writes: &List<Write>,
        pass: Option<Pass>,
        answer: Answer,
    ) -> Result<Prepared, OutOfMemory>
        requires keys { KeysDiffer writes.now }
        requires values { AllByRecursion (λ write. IsTrue (fits write.value)) writes.now }
        ensures { IfOk result (λ made. Prepares made self.now (swept_step self.now writes.now pass answer)) }
    {
        if self.table.is_full_for(writes.len()) {
            return Ok(Prepared::Same(Answer::Refused(Limit::Changes)));
        }
        Ok(Prepared::Became(self.after(alloc, writes, pass)?, answer))
    }

    // What a finished pass did.
    fn finished(&self, pass: &Pass, writes: &List<Write>) -> Answer
        ensures { self.now.table.1 + length writes.now ≤ change_limit → result ≡ finished self.now pass.now writes.now }
    {
        Answer::Finished {
            start: pass.start,
            end: self.table.top().saturating_add(writes.len() as u64),
            removed: pass.removed,
            entombed: pass.entombed,
            deleted: pass.deleted,
            skipped: pass.skipped,
        }
    }

    // The pass goes on over so many units.
    #[tactic(auto, unfolding(crate::specs::Zone::pass_step))]
    pub(crate) fn step(&self, alloc: Global, most: u32) -> Result<Prepared, OutOfMemory>
        ensures { IfOk result (λ made. Prepares made self.now (pass_step self.now most)) }
    {
        let Some(pass) = &self.pass else {
            return Ok(Prepared::Same(Answer::Idle));
        };
        match step(alloc, &self.table, pass, most, self.id)? {
            StepPlan::Void { props_usn } => {
                let after = self.with_pass(alloc, None)?;
                Ok(Prepared::Became(after, Answer::Void { props_usn }))
            }
            StepPlan::Moved { writes, pass } => {
                self.swept(alloc, &writes, Some(pass), Answer::Moved)
            }
            StepPlan::Finished { writes, pass } => {
                let answer = self.finished(&pass, &writes);
                self.swept(alloc, &writes, None, answer)
            }
        }
    }
}
