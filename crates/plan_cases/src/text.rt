//! The plant file of a sample.

use crate::samples::{Asked, Sample, Wire};
use irt_base::memory::NoMemory;
use std::alloc::Global;

const HEAD: &str = "factor = 32\nwindow = 1000\nred_max = 250000\norange = 0\nclocks = \"world\"\n";

const PORTS: &str = "[[100,200],[100,200],[100,200],[100,200],[100,200],[100,200],[100,200]]";

/// The text of a sample's plant file.
pub fn plant_text(alloc: Global, sample: &Sample<'_>) -> Result<String, NoMemory> {
    let mut text = String::from_str(alloc, HEAD)?;
    for (number, mode) in sample.modes.iter().enumerate() {
        text.push_str(device_text(alloc, number, mode)?.as_str())?;
    }
    for wire in sample.wires {
        text.push_str(link_text(alloc, *wire)?.as_str())?;
    }
    for asked in sample.asked {
        text.push_str(demand_text(alloc, *asked)?.as_str())?;
    }
    Ok(text)
}

fn device_text(alloc: Global, number: usize, mode: &str) -> Result<String, NoMemory> {
    let text = format!(in alloc;
        "[[device]]\nname = \"d{number}\"\nmode = \"{mode}\"\nbmin = 1000\nbmax = 3000\nports = {PORTS}\n"
    )?;
    Ok(text)
}

fn link_text(alloc: Global, wire: Wire) -> Result<String, NoMemory> {
    let (from, from_port, to, to_port) = wire;
    let text = format!(in alloc;
        "[[link]]\nfrom = \"d{from}\"\nfrom_port = {from_port}\nto = \"d{to}\"\nto_port = {to_port}\ndelay = 500\n"
    )?;
    Ok(text)
}

fn demand_text(alloc: Global, asked: Asked<'_>) -> Result<String, NoMemory> {
    let (frame, from, consumers) = asked;
    let mut to = String::new(alloc);
    for consumer in consumers {
        to.push_str(format!(in alloc; "\"d{consumer}\",")?.as_str())?;
    }
    let text = format!(in alloc;
        "[[demand]]\nframe = {frame}\nfrom = \"d{from}\"\nto = [{to}]\nlength = 40\nupdate = 4000000\n"
    )?;
    Ok(text)
}
