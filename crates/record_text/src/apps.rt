//! The lines of all apps.

ghost use Rattle.std.specs.Prelude.{◌≡◌, ◌++◌, OnOk};
ghost use Rattle.record_text.specs.Text.{apps_text};

use crate::lines::put_part;
use crate::part::Part;
use crate::record::AppRecord;
use irt_base::memory::NoMemory;
use irt_base::plants::Plant;

/// The lines of all apps in a part of the text, in the plant's order.
pub fn put_apps(
    out: &mut Vec<u8>,
    plant: &Plant,
    part: Part,
    apps: &[AppRecord],
) -> Result<(), NoMemory>
    ensures { OnOk result (out.new.items ≡ out.old.items ++ apps_text plant.now part apps.now) }
{
    for (app, log) in plant.apps.as_slice().iter().zip(apps) {
        put_part(out, plant, part, app.device, log)?;
    }
    Ok(())
}
