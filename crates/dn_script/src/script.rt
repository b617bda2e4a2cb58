ghost use Rattle.std.specs.Prelude.{◌≡◌, [], ◌∷◌};
ghost use Rattle.dn_script.specs.Play.{opening, output_of, replica_number, run_events, run_line, step_text};
ghost use Rattle.dn_world.specs.Runs.{IsValidWorld};
ghost use Rattle.dn_script.specs.Play.Stepped.{GivesOrLacks, GivesOrRefuses, Steps};

use crate::asking::{value_in, write_question};
use crate::line::{ScriptLine, line_of};
use crate::names::Names;
use crate::passes::whole_pass;
use crate::print::{datagram_line, packet_line};
use crate::print_reply::reply_text;
use dn_admin::answer_line;
use dn_answer::write_reply;
use dn_io::{List, Moment};
use dn_lines::{Bad, work_of};
use dn_name::Name;
use dn_stamp::ReplicaId;
use dn_word::TextError;
use dn_world::{World, WorldAnswer, WorldEvent};
use dn_zone::{AdminCmd, Event};
use std::alloc::Global;

// A script so far: the names of its replicas in the order of their numbers, the world, and the moment.
#[derive(Drop)]
pub struct Script {
    pub names: Names,
    pub world: World,
    pub moment: Moment,
}

// The line of output of an answer.
#[tactic(auto, unfolding(crate::specs::Play::output_of))]
fn output_of(alloc: Global, answer: WorldAnswer) -> Result<List<u8>, Bad>
    ensures { GivesOrLacks result (output_of answer) }
{
    match answer {
        WorldAnswer::Made => Ok(List::new(alloc)),
        WorldAnswer::Zone(answer) => Ok(answer_line(alloc, answer)?),
        WorldAnswer::Sent { packet } => Ok(packet_line(alloc, packet)?),
        WorldAnswer::No(_) => Err(Bad::Line),
    }
}

impl Script {
    // The script before its first line: no replica, and the first moment until a line sets another.
    #[tactic(auto, unfolding(crate::specs::Play::opening))]
    pub fn opening(alloc: Global) -> Script
        ensures { result ≡ opening }
    {
        Script {
            names: Names::new(alloc),
            world: World::new(alloc),
            moment: Moment::first(),
        }
    }

    // The number of the replica of a name. A line with a name that no replica has isn't valid.
    #[tactic(auto, unfolding(crate::specs::Play::replica_number))]
    fn replica_number(&self, name: &[u8]) -> Result<usize, Bad>
        ensures { GivesOrRefuses result (replica_number self.now name.now) }
    {
        match self.names.number_of(name) {
            Some(number) => Ok(number),
            None => Err(Bad::Line),
        }
    }

    // One event of the world, with its line of output.
    #[tactic(auto, unfolding(crate::specs::Play::run_events))]
    fn run_event(&mut self, alloc: Global, event: &WorldEvent) -> Result<List<u8>, Bad>
        ensures step { Steps result self.new (run_events self.old (event.now ∷ [])) }
        ensures names { self.new.names ≡ self.old.names }
    {
        let answer = self.world.step(alloc, event)?;
        output_of(alloc, answer)
    }

    // `replica R ID HOST`
    #[tactic(auto, unfolding(crate::specs::Play::run_line, crate::specs::Play::events_of, crate::specs::Play::besides))]
    fn replica(
        &mut self,
        alloc: Global,
        name: List<u8>,
        id: ReplicaId,
        host: Name,
    ) -> Result<List<u8>, Bad>
        ensures { Steps result self.new (run_line self.old (ScriptLine.Replica name id host)) }
    {
        if self.names.has(name.as_slice()) {
            return Err(Bad::Line);
        }
        let output = self.run_event(alloc, &WorldEvent::Replica { id, host })?;
        self.names.push(name)?;
        Ok(output)
    }

    // `zone create R Z MAILBOX`
    #[tactic(auto, unfolding(crate::specs::Play::run_line, crate::specs::Play::events_of, crate::specs::Play::besides))]
    fn create(
        &mut self,
        alloc: Global,
        replica: &[u8],
        apex: Name,
        mailbox: Name,
    ) -> Result<List<u8>, Bad>
        ensures { Steps result self.new (run_line self.old (ScriptLine.Create replica.now apex mailbox)) }
    {
        let at = self.replica_number(replica)?;
        let event = WorldEvent::Create {
            at,
            apex,
            mailbox,
            moment: self.moment,
        };
        self.run_event(alloc, &event)
    }

    // `zone join R Z`
    #[tactic(auto, unfolding(crate::specs::Play::run_line, crate::specs::Play::events_of, crate::specs::Play::besides))]
    fn join(&mut self, alloc: Global, replica: &[u8], apex: Name) -> Result<List<u8>, Bad>
        ensures { Steps result self.new (run_line self.old (ScriptLine.Join replica.now apex)) }
    {
        let at = self.replica_number(replica)?;
        self.run_event(alloc, &WorldEvent::Join { at, apex })
    }

    // `pull R S Z`
    #[tactic(auto, unfolding(crate::specs::Play::run_line, crate::specs::Play::events_of, crate::specs::Play::besides))]
    fn pull(
        &mut self,
        alloc: Global,
        replica: &[u8],
        supplier: &[u8],
        apex: Name,
    ) -> Result<List<u8>, Bad>
        ensures { Steps result self.new (run_line self.old (ScriptLine.Pull replica.now supplier.now apex)) }
    {
        let by = self.replica_number(replica)?;
        let of = self.replica_number(supplier)?;
        self.run_event(alloc, &WorldEvent::Pull { by, of, apex })
    }

    // A whole pass over a zone.
    #[tactic(auto, unfolding(crate::specs::Play::run_line, crate::specs::Play::events_of, crate::specs::Play::besides, crate::specs::Play::run_events))]
    fn pass(&mut self, alloc: Global, replica: &[u8], apex: &Name) -> Result<List<u8>, Bad>
        ensures { Steps result self.new (run_line self.old (ScriptLine.Pass replica.now apex.now)) }
    {
        let at = self.replica_number(replica)?;
        let answer = whole_pass(alloc, &mut self.world, at, apex, self.moment)?;
        output_of(alloc, answer)
    }

    // `admin R Z COMMAND`
    #[tactic(auto, unfolding(crate::specs::Play::run_line, crate::specs::Play::events_of, crate::specs::Play::besides))]
    fn admin(
        &mut self,
        alloc: Global,
        replica: &[u8],
        apex: Name,
        cmd: AdminCmd,
    ) -> Result<List<u8>, Bad>
        ensures { Steps result self.new (run_line self.old (ScriptLine.Admin replica.now apex cmd)) }
    {
        let at = self.replica_number(replica)?;
        let event = WorldEvent::Act {
            at,
            apex,
            event: Event::Admin {
                cmd,
                moment: self.moment,
            },
        };
        self.run_event(alloc, &event)
    }

    // What a replica replies to a question, which it gets and answers in bytes.
    #[tactic(auto, using(crate::proofs::LineLemmas::ask_line))]
    fn ask(
        &mut self,
        alloc: Global,
        replica: &[u8],
        name: &Name,
        qtype: u16,
    ) -> Result<List<u8>, Bad>
        requires { IsValidWorld self.old.world }
        ensures { Steps result self.new (run_line self.old (ScriptLine.Ask replica.now name.now qtype)) }
    {
        let at = self.replica_number(replica)?;
        if at >= self.world.replicas().len() {
            return Err(Bad::Line);
        }
        let mut request = [0u8; 512];
        let len = write_question(name, qtype, &mut request);
        let (question, _) = request.split_at(len);
        let mut out = [0u8; 512];
        let len = self
            .world
            .datagram(alloc, at, self.moment, question, &mut out)?;
        let (reply, _) = out.split_at(len);
        let value = value_in(alloc, reply)?;
        Ok(reply_text(alloc, &value)?)
    }

    // What a replica replies to a datagram, which it gets at the script's moment.
    #[tactic(auto, using(crate::proofs::LineLemmas::udp_line))]
    fn udp(&mut self, alloc: Global, replica: &[u8], bytes: &[u8]) -> Result<List<u8>, Bad>
        requires { IsValidWorld self.old.world }
        ensures { Steps result self.new (run_line self.old (ScriptLine.Udp replica.now bytes.now)) }
    {
        let at = self.replica_number(replica)?;
        if at >= self.world.replicas().len() {
            return Err(Bad::Line);
        }
        let received = self.world.received(at, bytes);
        if received.wants_more() {
            return Err(Bad::Line);
        }
        let mut out = [0u8; 512];
        let len = write_reply(alloc, &received, bytes, &mut out)?;
        let (reply, _) = out.split_at(len);
        Ok(datagram_line(alloc, reply)?)
    }

    // Runs a line, and answers what it prints.
    #[tactic(auto, using(crate::proofs::LineLemmas::at_line, crate::proofs::LineLemmas::deliver_line))]
    fn run_line(&mut self, alloc: Global, line: ScriptLine) -> Result<List<u8>, Bad>
        requires { IsValidWorld self.old.world }
        ensures { Steps result self.new (run_line self.old line) }
    {
        match line {
            ScriptLine::Replica { name, id, host } => self.replica(alloc, name, id, host),
            ScriptLine::Create {
                replica,
                apex,
                mailbox,
            } => self.create(alloc, replica.as_slice(), apex, mailbox),
            ScriptLine::Join { replica, apex } => self.join(alloc, replica.as_slice(), apex),
            ScriptLine::Pull {
                replica,
                supplier,
                apex,
            } => self.pull(alloc, replica.as_slice(), supplier.as_slice(), apex),
            ScriptLine::Pass { replica, apex } => self.pass(alloc, replica.as_slice(), &apex),
            ScriptLine::Deliver { packet } => {
                self.run_event(alloc, &WorldEvent::Deliver { packet })
            }
            ScriptLine::At { moment } => {
                self.moment = moment;
                Ok(List::new(alloc))
            }
            ScriptLine::Admin { replica, apex, cmd } => {
                self.admin(alloc, replica.as_slice(), apex, cmd)
            }
            ScriptLine::Ask {
                replica,
                name,
                qtype,
            } => self.ask(alloc, replica.as_slice(), &name, qtype),
            ScriptLine::Udp { replica, bytes } => {
                self.udp(alloc, replica.as_slice(), bytes.as_slice())
            }
        }
    }

    // Runs a line by its text, and answers what it prints.
    //
    // # Errors
    // `Line` exactly where the line isn't valid, `Memory` where memory wasn't to be had.
    #[tactic(auto, unfolding(crate::specs::Play::step_text))]
    pub fn step(&mut self, alloc: Global, text: &[u8]) -> Result<List<u8>, Bad>
        requires { IsValidWorld self.old.world }
        ensures { Steps result self.new (step_text self.old text.now) }
    {
        let Some(words) = work_of(alloc, text)? else {
            return Ok(List::new(alloc));
        };
        match line_of(alloc, text, &words) {
            Ok(line) => self.run_line(alloc, line),
            Err(TextError::BadText) => Err(Bad::Line),
            Err(TextError::OutOfMemory) => Err(Bad::Memory),
        }
    }
}
