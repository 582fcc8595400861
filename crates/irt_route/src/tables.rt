//! Routes: the tree of each demand, and the walk of each traffic entry.

ghost use Rattle.std.specs.Prelude.{◌≡◌};
ghost use Rattle.irt_route.specs.Routes.{tree_parent, traffic_walk};

use crate::trees::{Parents, parent_at};
use crate::walks::Walk;
use irt_base::list::Items;
use irt_base::numbers::{DevId, PortNo};
use std::marker::Model;

/// The tree of each demand, and the walk of each traffic entry.
#[derive(Drop)]
pub struct Routes {
    pub(crate) trees: Items<Parents>,
    pub(crate) walks: Items<Walk>,
}

impl Model for Routes {
    ghost use Rattle.std.specs.Prelude.{map};
    ghost use Rattle.irt_route.specs.Routes.{RouteTables};

    ghost Value = { RouteTables };

    ghost view = { λ s. record { parents = s.trees; walks = map (λ w. w.items) s.walks } };
}

impl Routes {
    /// The device and port from which the demand's tree comes to a device. `None` comes exactly at the
    /// provider and off the tree.
    pub fn parent(&self, demand: u16, device: DevId) -> Option<(DevId, PortNo)>
        ensures { result ≡ tree_parent self.now demand device.0 }
    {
        match self.trees.get(usize::from(demand)) {
            None => None,
            Some(parents) => parent_at(parents, device),
        }
    }

    /// The ports by which the walk of a traffic entry leaves its devices.
    pub fn walk(&self, traffic: u16) -> &[PortNo]
        ensures { result.now ≡ traffic_walk self.now traffic }
    {
        match self.walks.get(usize::from(traffic)) {
            None => &[],
            Some(walk) => walk.as_slice(),
        }
    }
}
