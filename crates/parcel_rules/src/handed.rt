//! Parcels between two ports.

use irt_base::numbers::DevId;
use period_gate::parcels::Parcel;

/// A parcel that is handed over to a device at the beginning of a cycle: to its source, where it was made, or to the
/// device to which a link has brought it.
#[derive(Clone, Copy, PartialEq, Eq)]
pub struct Handed {
    pub device: DevId,
    pub parcel: Parcel,
}
