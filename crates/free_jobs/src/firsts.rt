//! Which apps a run has.

use std::marker::Brand;

/// Names the first state of each app of a run, in the plant's order.
pub trait Firsts<A> {
    ghost use Rattle.std.specs.Prelude.{List};

    ghost firsts: { List A };
}

impl<A> Firsts<A> for Brand {
    ghost use Rattle.std.specs.Prelude.{[]};

    ghost firsts = { [] };
}
