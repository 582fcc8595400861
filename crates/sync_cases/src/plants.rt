//! Plants whose devices stand in a line.

use irt_base::memory::NoMemory;
use std::alloc::Global;

/// The plant file of these devices, each one's port 2 linked to the next one's port 1, with the send, timeout, drift,
/// stamp and loss of its sync domain.
pub fn line_text(alloc: Global, names: &[&str], sync: [u32; 5]) -> Result<String, NoMemory> {
    let [send, timeout, drift, stamp, loss] = sync;
    let mut text = format!(in alloc;
        "factor = 32\nwindow = 1000\nred_max = 250000\norange = 0\nclocks = \"ptcp\"\n\
        [sync]\nsend = {send}\ntimeout = {timeout}\ndrift = {drift}\nstamp = {stamp}\nloss = {loss}\n"
    )?;
    for name in names {
        let device = format!(in alloc;
            "[[device]]\nname = \"{name}\"\nmode = \"absolute\"\nbmin = 1000\nbmax = 3000\nports = [[100, 200], [100, 200]]\n"
        )?;
        text.push_str(device.as_str())?;
    }
    for ends in names.windows(2) {
        let link = format!(in alloc;
            "[[link]]\nfrom = \"{}\"\nfrom_port = 2\nto = \"{}\"\nto_port = 1\ndelay = 500\n",
            ends[0], ends[1]
        )?;
        text.push_str(link.as_str())?;
    }
    Ok(text)
}
