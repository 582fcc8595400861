//! Parcels, and what the gate answers about them.

use irt_base::plants::Class;

/// One parcel of a traffic entry.
#[derive(Clone, Copy, Debug, PartialEq, Eq)]
pub struct Parcel {
    /// The traffic entry of the plant, from 0.
    pub traffic: u16,
    /// Which parcel of the entry, from 0.
    pub serial: u32,
    /// The bytes of the parcel.
    pub length: u16,
}

/// A parcel that was let out, with the time in which it occupies the link, in local ns of the cycle.
#[derive(Clone, Copy, Debug, PartialEq, Eq)]
pub struct Sent {
    pub class: Class,
    pub parcel: Parcel,
    pub start: u32,
    /// When the link is free again, the gap behind the parcel included.
    pub end: u32,
}

/// The answer to an offer.
#[derive(Clone, Copy, Debug, PartialEq, Eq)]
pub enum Offered {
    /// The parcel waits as the last of its class.
    Queued,
    /// There is no room in its class, and nothing changed.
    Full,
}
