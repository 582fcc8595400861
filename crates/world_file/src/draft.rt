//! A row as far as a line is read.

ghost use Rattle.std.specs.Prelude.{◌≡◌, ◌+◌, ◌≤◌, ◌<◌, ◌^◌, length, IfOk, OnOk};
ghost use Rattle.world_file.specs.Reading.{empty_draft, is_delay, is_error, is_link, signed_of, with_delay, with_error, with_link};

use crate::number::Number;
use irt_base::limits::MAX_ERROR;
use irt_base::list::Items;
use irt_base::memory::NoMemory;
use irt_world::forwardings::Forwarding;
use irt_world::rows::Row;
use std::alloc::Global;

/// The values of a line up to the first wrong one.
#[derive(Drop)]
pub(crate) struct Draft {
    pub(crate) row: Row,
    /// The least number that the next cut link may have.
    pub(crate) least_link: u64,
    /// Whether a wrong value has come.
    pub(crate) is_wrong: bool,
}

impl Draft {
    /// Nothing of a line, with room for so many errors and bridge delays.
    pub(crate) fn new(alloc: Global, errors: usize, bridges: usize) -> Result<Draft, NoMemory>
        ensures { IfOk result (λ draft. draft ≡ empty_draft) }
    {
        let errors = Items::with_capacity(alloc, errors)?;
        let bridges = Items::with_capacity(alloc, bridges)?;
        Ok(Draft {
            row: Row {
                errors,
                bridges,
                cuts: Items::new(alloc),
            },
            least_link: 0,
            is_wrong: false,
        })
    }

    pub(crate) fn take_error(&mut self, number: Number) -> Result<(), NoMemory>
        ensures { OnOk result (self.new ≡ with_error self.old number) }
    {
        if self.is_wrong {
            return Ok(());
        }
        if is_error(number) {
            self.row.errors.push(signed_of(number))?;
        } else {
            self.is_wrong = true;
        }
        Ok(())
    }

    pub(crate) fn take_delay(
        &mut self,
        forwarding: Forwarding,
        number: Number,
    ) -> Result<(), NoMemory>
        ensures { OnOk result (self.new ≡ with_delay self.old forwarding number) }
    {
        if self.is_wrong {
            return Ok(());
        }
        if is_delay(forwarding, number) {
            self.row.bridges.push(number.size as u32)?;
        } else {
            self.is_wrong = true;
        }
        Ok(())
    }

    /// A cut link of a plant with so many.
    pub(crate) fn take_link(&mut self, links: u64, number: Number) -> Result<(), NoMemory>
        requires { links ≤ 2 ^ 16 }
        ensures { OnOk result (self.new ≡ with_link links self.old number) }
    {
        if self.is_wrong {
            return Ok(());
        }
        if is_link(self.least_link, links, number) {
            self.row.cuts.push(number.size as u16)?;
            self.least_link = number.size + 1;
        } else {
            self.is_wrong = true;
        }
        Ok(())
    }
}

fn signed_of(number: Number) -> i64
    requires { number.size < 2 ^ 63 }
    ensures { result ≡ signed_of number }
{
    let size = number.size as i64;
    if number.negative { -size } else { size }
}

fn is_error(number: Number) -> bool
    ensures { result ≡ is_error number }
{
    number.size <= u64::from(MAX_ERROR)
}

fn is_delay(forwarding: Forwarding, number: Number) -> bool
    ensures { result ≡ is_delay forwarding number }
{
    !number.negative
        && u64::from(forwarding.bmin) <= number.size
        && number.size <= u64::from(forwarding.bmax)
}

fn is_link(least: u64, links: u64, number: Number) -> bool
    ensures { result ≡ is_link least links number }
{
    !number.negative && least <= number.size && number.size < links
}
