//! The placement of one frame.

use irt_base::blocks::Entry;
use irt_base::list::Items;
use irt_base::numbers::FrameId;

/// A frame with its entry at each device, where the device has one. Devices count from 0.
#[derive(Drop)]
pub struct FramePlan {
    pub frame: FrameId,
    pub entries: Items<Option<Entry>>,
}
