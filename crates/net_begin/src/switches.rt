//! The begin of a cycle at all switches.

ghost use Rattle.std.specs.Prelude.{◌≡◌, ◌+◌, ◌≤◌, ◌++◌, All, length, map, IsPermutation};
ghost use Rattle.irt_base.specs.declared.limits.TheConstants.{MAX_DEVICES};
ghost use Rattle.irt_world.specs.Rows.{IsError};
ghost use Rattle.net_begin.specs.Clocks.{begin_of};
ghost use Rattle.net_begin.specs.Begun.{HaveBegun, HasSmallTimes, released, starts_of_all};

use crate::clocks::{begin_event, keeps_step};
use event_queue::queue::Queue;
use irt_base::numbers::DevId;
use irt_base::plants::Plant;
use irt_switch::Switch;
use irt_world::rows::Row;
use net_starts::releases::push_released;

/// Begins cycle `k` at all switches, which stand by device. It takes no memory.
pub fn begin_all(switches: &mut [Switch], plant: &Plant, row: &Row, k: u32)
    requires { length switches.old ≤ MAX_DEVICES }
    ensures { HaveBegun plant.now row.now k switches.old switches.new }
{
    for index in 0..switches.len() {
        let step = keeps_step(plant, row, DevId(index as u8));
        let switch = &mut switches[index];
        switch.begin(k, step);
    }
}

/// Releases all that the devices still have to in cycle `k`, and puts the starts into a queue. It takes no memory.
pub fn release_all(queue: &mut Queue, switches: &mut [Switch], plant: &Plant, row: &Row, k: u32)
    requires count { length switches.old ≤ MAX_DEVICES }
    requires errors { All IsError row.now.errors }
    requires times { All HasSmallTimes switches.old }
    requires room { length (starts_of_all (begin_of plant.now row.now k) 0 switches.old) ≤ queue.old.room }
    ensures put { IsPermutation
        (starts_of_all (begin_of plant.now row.now k) 0 switches.old ++ queue.old.events) queue.new.events }
    ensures room { queue.old.room ≤
        queue.new.room + length (starts_of_all (begin_of plant.now row.now k) 0 switches.old) }
    ensures released { switches.new ≡ map released switches.old }
{
    for index in 0..switches.len() {
        let begin = begin_event(plant, row, k, DevId(index as u8));
        let switch = &mut switches[index];
        push_released(queue, switch, begin);
    }
}
