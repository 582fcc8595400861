//! Texts of choices and names.

ghost use Rattle.std.specs.Prelude.{◌≡◌};
ghost use Rattle.plant_print.specs.Written.{clocks_text, mode_text, class_text, app_text};

use irt_base::plants::{AppName, Class, Clocks, Mode};

/// Whose clocks the devices follow.
pub fn clocks_text(clocks: Clocks) -> &'static str
    ensures { result.now ≡ clocks_text clocks }
{
    match clocks {
        Clocks::World => "world",
        Clocks::Ptcp => "ptcp",
    }
}

/// How a device forwards.
pub fn mode_text(mode: Mode) -> &'static str
    ensures { result.now ≡ mode_text mode }
{
    match mode {
        Mode::Absolute => "absolute",
        Mode::Relative => "relative",
    }
}

/// The class of parcels.
pub fn class_text(class: Class) -> &'static str
    ensures { result.now ≡ class_text class }
{
    match class {
        Class::Orange => "orange",
        Class::Green => "green",
    }
}

/// What an application does.
pub fn app_text(kind: AppName) -> &'static str
    ensures { result.now ≡ app_text kind }
{
    match kind {
        AppName::Copy => "copy",
        AppName::Counter => "counter",
        AppName::Follow => "follow",
        AppName::Limit => "limit",
    }
}
