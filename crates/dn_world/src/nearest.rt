//! The zone of a replica that answers for a name.

ghost use Rattle.std.specs.Prelude.{◌≡◌, ◌&&◌};
ghost use Rattle.dn_answer.specs.Datagram.{is_over, zone_over};
ghost use Rattle.dn_world.specs.Datagram.{view_of, zones_of};
ghost use Rattle.dn_world.specs.World.{is_of};

use crate::world::World;
use dn_answer::ZoneView;
use dn_name::Name;
use dn_stamp::ReplicaId;
use dn_zone::Zone;

// A zone as its replica shows it.
fn view_of(zone: &Zone) -> ZoneView<'_>
    ensures { result ≡ view_of zone.now }
{
    ZoneView::new(zone.apex(), zone.host(), zone.table())
}

// Whether a zone is the replica's, and over the name.
fn covers(zone: &Zone, id: ReplicaId, name: &Name) -> bool
    ensures { result ≡ (is_of id zone.now && is_over name.now (view_of zone.now)) }
{
    zone.id() == id && view_of(zone).is_over(name)
}

impl World {
    // Of the zones of a replica that are over a name the one with the longest name.
    pub fn zone_over(&self, id: ReplicaId, name: &Name) -> Option<ZoneView<'_>>
        ensures { result ≡ zone_over (zones_of self.now id) name.now }
    {
        let zones = self.zones.as_slice();
        let mut nearest: Option<ZoneView> = None;
        let mut at = zones.len();
        while at > 0 {
            at -= 1;
            let zone = &zones[at];
            if covers(zone, id, name) {
                nearest = Some(view_of(zone).nearer(nearest));
            }
        }
        nearest
    }
}
