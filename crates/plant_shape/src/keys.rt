//! Which keys each table of a plant file may have.

ghost use Rattle.std.specs.Prelude.{◌≡◌};
ghost use Rattle.toml.specs.View.{table_view};
ghost use Rattle.plant_shape.specs.Keys.{is_key, all_known};

use toml::Table;

/// The tables of a plant file.
#[derive(Clone, Copy, PartialEq, Eq)]
pub enum TableKind {
    Top,
    Sync,
    Device,
    Link,
    Demand,
    Traffic,
    App,
}

/// Whether a table of this kind may have the key.
fn is_key(kind: TableKind, key: &str) -> bool
    ensures { result ≡ is_key kind key.now }
{
    match kind {
        TableKind::Top => is_top_key(key),
        TableKind::Sync => matches!(key, "send" | "timeout" | "drift" | "stamp" | "loss"),
        TableKind::Device => matches!(key, "name" | "mode" | "bmin" | "bmax" | "ports"),
        TableKind::Link => matches!(key, "from" | "to" | "from_port" | "to_port" | "delay"),
        TableKind::Demand => matches!(key, "frame" | "from" | "to" | "length" | "update"),
        TableKind::Traffic => {
            matches!(key, "from" | "to" | "class" | "length" | "every" | "count")
        }
        TableKind::App => matches!(key, "device" | "kind" | "param"),
    }
}

fn is_top_key(key: &str) -> bool
    ensures { result ≡ is_key TableKind.Top key.now }
{
    matches!(
        key,
        "factor"
            | "window"
            | "red_max"
            | "orange"
            | "clocks"
            | "sync"
            | "device"
            | "link"
            | "demand"
            | "traffic"
            | "app"
    )
}

/// Whether a table has no key but those of its kind.
pub fn all_known(kind: TableKind, table: &Table) -> bool
    ensures { result ≡ all_known kind (table_view table.now) }
{
    for (key, _) in table {
        if !is_key(kind, key.as_str()) {
            return false;
        }
    }
    true
}
