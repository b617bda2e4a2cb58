ghost use Rattle.std.specs.Prelude.{◌≡◌, Some, IfOk};
ghost use Rattle.dn_answer.specs.Datagram.{is_over, nearer};
ghost use Rattle.dn_answer.specs.View.{seen_reply};

use crate::reply::AnswerValue;
use crate::replying::answer;
use dn_io::OutOfMemory;
use dn_name::Name;
use dn_store::Table;
use std::alloc::Global;
use std::marker::Model;

/// A zone as it is seen where a question is answered: its name in lower case, the own name of the replica that answers, and its
/// table. It lends all three.
#[derive(Drop)]
pub struct ZoneView<'a> {
    apex: &'a Name,
    host: &'a Name,
    table: &'a Table,
}

impl<'a> Model for ZoneView<'a> {
    ghost use Rattle.dn_answer.specs.View.{ZoneSeen};

    ghost Value = { ZoneSeen };

    ghost view = { λ zone. record { apex = zone.apex.now; host = zone.host.now; table = zone.table.now } };
}

impl<'a> ZoneView<'a> {
    /// The zone of a name and a table, on the replica that has this name of its own.
    pub fn new(apex: &'a Name, host: &'a Name, table: &'a Table) -> ZoneView<'a>
        ensures { result ≡ record { apex = apex.now; host = host.now; table = table.now } }
    {
        ZoneView { apex, host, table }
    }

    /// Whether a name is the zone's or below it.
    pub fn is_over(&self, name: &Name) -> bool
        ensures { result ≡ is_over name.now self.now }
    {
        name.is_under(self.apex)
    }

    /// The zone with the longer name, by number of labels; this one where they are equally long, or there is no other.
    pub fn nearer(self, other: Option<ZoneView<'a>>) -> ZoneView<'a>
        ensures { nearer self.entry other.entry ≡ Some result }
    {
        match other {
            Some(other) if self.apex.labels() < other.apex.labels() => other,
            _ => self,
        }
    }

    /// The zone's reply to a question of class IN.
    ///
    /// # Errors
    /// `OutOfMemory`.
    pub fn reply(&self, alloc: Global, name: &Name, qtype: u16) -> Result<AnswerValue, OutOfMemory>
        ensures { IfOk result (λ value. value ≡ seen_reply self.now name.now qtype) }
    {
        answer(alloc, self.table, self.apex, self.host, name, qtype)
    }
}
