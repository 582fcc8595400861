//! Where a rule fails.

use irt_base::numbers::DevId;

/// A place of a rule: a device, one of its ports (from 1), a frame and another frame, as the rule names them.
/// What a rule does not name is 0.
#[derive(Clone, Copy, PartialEq, Eq)]
pub struct Place {
    pub device: DevId,
    pub port: u8,
    pub frame: u16,
    pub other: u16,
}

impl Place {
    ghost use Rattle.std.specs.Prelude.{◌≡◌};
    ghost use Rattle.plan_rules.specs.Places.{place_of};

    /// A place without another frame.
    pub fn new(device: DevId, port: u8, frame: u16) -> Place
        ensures { result ≡ place_of device.0 port frame }
    {
        Place {
            device,
            port,
            frame,
            other: 0,
        }
    }
}

/// The first rule that fails (1 to 15) and its least place.
#[derive(Clone, Copy, PartialEq, Eq)]
pub struct Reject {
    pub rule: u8,
    pub place: Place,
}
