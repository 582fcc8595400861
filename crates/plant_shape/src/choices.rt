//! Texts of a fixed choice.

ghost use Rattle.std.specs.Prelude.{◌≡◌};
ghost use Rattle.plant_shape.specs.Shape.{clocks_of, mode_of, class_of, app_name_of};

use irt_base::plants::{AppName, Class, Clocks, Mode};

/// Whose clocks a text names.
pub fn clocks_of(text: &str) -> Option<Clocks>
    ensures { result ≡ clocks_of text.now }
{
    match text {
        "world" => Some(Clocks::World),
        "ptcp" => Some(Clocks::Ptcp),
        _ => None,
    }
}

/// The way of forwarding that a text names.
pub fn mode_of(text: &str) -> Option<Mode>
    ensures { result ≡ mode_of text.now }
{
    match text {
        "absolute" => Some(Mode::Absolute),
        "relative" => Some(Mode::Relative),
        _ => None,
    }
}

/// The class of parcels that a text names.
pub fn class_of(text: &str) -> Option<Class>
    ensures { result ≡ class_of text.now }
{
    match text {
        "orange" => Some(Class::Orange),
        "green" => Some(Class::Green),
        _ => None,
    }
}

/// The application that a text names.
pub fn app_name_of(text: &str) -> Option<AppName>
    ensures { result ≡ app_name_of text.now }
{
    match text {
        "copy" => Some(AppName::Copy),
        "counter" => Some(AppName::Counter),
        "follow" => Some(AppName::Follow),
        "limit" => Some(AppName::Limit),
        _ => None,
    }
}
