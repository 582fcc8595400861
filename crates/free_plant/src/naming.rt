//! Which run it is.

use std::marker::Brand;

/// Names the plant of a run before cycle 0, and the exchanges of its apps, in the plant's order.
pub trait Naming {
    ghost use Rattle.std.specs.Prelude.{List, Option};
    ghost use Rattle.io_buffers.specs.Passes.{ExchangeId};
    ghost use Rattle.iso_plant.specs.Replay.{PlantView};

    ghost inputs: { List ExchangeId };

    ghost outputs: { List ExchangeId };

    ghost start: { Option PlantView };
}

impl Naming for Brand {
    ghost use Rattle.std.specs.Prelude.{[], None};

    ghost inputs = { [] };

    ghost outputs = { [] };

    ghost start = { None };
}
