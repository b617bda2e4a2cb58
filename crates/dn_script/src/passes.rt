ghost use Rattle.std.specs.Prelude.{◌≡◌, IfOk};
ghost use Rattle.dn_script.specs.Passes.{is_begun, is_moved, step_at, steps_to_end, units_in, whole_pass};
ghost use Rattle.dn_world.specs.World.{zone_at};

use dn_io::{Moment, OutOfMemory};
use dn_name::Name;
use dn_world::{World, WorldAnswer, WorldEvent};
use dn_zone::{Answer, Event};
use std::alloc::Global;

// How many units a step of a whole pass looks at.
const STEP_UNITS: u32 = 64;

fn is_begun(answer: WorldAnswer) -> bool
    ensures { result ≡ is_begun answer }
{
    matches!(answer, WorldAnswer::Zone(Answer::Begun))
}

fn is_moved(answer: WorldAnswer) -> bool
    ensures { result ≡ is_moved answer }
{
    matches!(answer, WorldAnswer::Zone(Answer::Moved))
}

// One step of a pass over a zone.
#[tactic(auto, unfolding(crate::specs::Passes::step_at))]
fn step_at(
    alloc: Global,
    world: &mut World,
    at: usize,
    apex: &Name,
) -> Result<WorldAnswer, OutOfMemory>
    ensures { IfOk result (λ answer. step_at world.old at apex.now ≡ (world.new, answer)) }
{
    let event = WorldEvent::Act {
        at,
        apex: *apex,
        event: Event::Step { most: STEP_UNITS },
    };
    world.step(alloc, &event)
}

// How many units a replica's zone has, 0 where there is none.
fn units_of(world: &World, at: usize, apex: &Name) -> usize
    ensures { result ≡ units_in (zone_at world.now at apex.now) }
{
    match world.zone(at, apex) {
        Some(zone) => zone.table().count(),
        None => 0,
    }
}

// Steps until an answer isn't that the pass goes on.
#[tactic(auto, unfolding(crate::specs::Passes::steps_to_end))]
fn steps_to_end(
    alloc: Global,
    world: &mut World,
    at: usize,
    apex: &Name,
) -> Result<WorldAnswer, OutOfMemory>
    ensures { IfOk result (λ answer. steps_to_end world.old at apex.now ≡ (world.new, answer)) }
{
    let most = units_of(world, at, apex);
    for _left in 0..most {
        let answer = step_at(alloc, world, at, apex)?;
        if !is_moved(answer) {
            return Ok(answer);
        }
    }
    step_at(alloc, world, at, apex)
}

// A pass over a zone at a moment, from its begin to its end. The last answer counts.
//
// # Errors
// `OutOfMemory`; the pass may then have begun.
#[tactic(auto, unfolding(crate::specs::Passes::whole_pass))]
pub fn whole_pass(
    alloc: Global,
    world: &mut World,
    at: usize,
    apex: &Name,
    moment: Moment,
) -> Result<WorldAnswer, OutOfMemory>
    ensures { IfOk result (λ answer. whole_pass world.old at apex.now moment ≡ (world.new, answer)) }
{
    let begin = WorldEvent::Act {
        at,
        apex: *apex,
        event: Event::Begin { moment },
    };
    let answer = world.step(alloc, &begin)?;
    if is_begun(answer) {
        steps_to_end(alloc, world, at, apex)
    } else {
        Ok(answer)
    }
}
