//! What the rule of the shared exchange speaks of. No value of these types is made: they stand in proofs
//! alone.

use atomic_table::{Join, Play, Split, TableRule};
use std::collections::LinkedList;

/// One atomic step of a side, with what it found. Places count from 0.
pub enum Made {
    /// A word was stored in the draft row.
    Stored { place: u64, word: u64 },
    /// The draft row was published, and this control word was found.
    Published { found: u64 },
    /// The first look of a take at the control word.
    Probed { found: u64 },
    /// The middle row was taken, and this control word was found.
    Took { found: u64 },
    /// A word of the front row was loaded.
    Loaded { place: u64, word: u64 },
    /// The last look of a take at the control word.
    Ended { found: u64 },
}

/// What a seat at the table knows: the steps that its side has made, the last one first.
pub enum View {
    /// The first seat, before the sides part.
    Whole,
    Producer(LinkedList<Made>),
    Consumer(LinkedList<Made>),
    /// Both sides, after the exchange is closed.
    Joined(LinkedList<Made>, LinkedList<Made>),
    /// A seat that was joined to the other.
    Spent,
}

/// The rule: the words and the steps of both sides are a sound state of the three-slot exchange. Its key is
/// the number of words of a row.
pub struct ThreeSlots;

impl TableRule<u8, View, u16> for ThreeSlots {
    ghost use Rattle.io_buffers.specs.Rule.{Held};
    ghost use Rattle.io_buffers.specs.declared.views.View.TheVariants.{Whole};

    ghost holds = { Held };

    ghost first = { λ _. Whole };
}

/// A store of a draft word.
pub struct Store;

impl Play<u8, View> for Store {
    ghost use Rattle.io_buffers.specs.Rule.{stores};

    ghost then = { stores };
}

/// The publishing swap.
pub struct Publish;

impl Play<u8, View> for Publish {
    ghost use Rattle.io_buffers.specs.Rule.{publishes};

    ghost then = { publishes };
}

/// The first control load of a take.
pub struct Probe;

impl Play<u8, View> for Probe {
    ghost use Rattle.io_buffers.specs.Rule.{probes};

    ghost then = { probes };
}

/// The taking swap.
pub struct Take;

impl Play<u8, View> for Take {
    ghost use Rattle.io_buffers.specs.Rule.{takes_row};

    ghost then = { takes_row };
}

/// A load of a word of the front row.
pub struct Load;

impl Play<u8, View> for Load {
    ghost use Rattle.io_buffers.specs.Rule.{loads};

    ghost then = { loads };
}

/// The last control load of a take.
pub struct End;

impl Play<u8, View> for End {
    ghost use Rattle.io_buffers.specs.Rule.{ends};

    ghost then = { ends };
}

/// The first seat becomes the producer's, and the new one is the consumer's.
pub struct Cut;

impl Split<View> for Cut {
    ghost use Rattle.std.specs.Prelude.{[]};
    ghost use Rattle.io_buffers.specs.declared.views.View.TheVariants.{Producer, Consumer};

    ghost left = { λ _. Producer [] };

    ghost right = { λ _. Consumer [] };
}

/// Both sides' steps are known to one seat.
pub struct Glue;

impl Join<View> for Glue {
    ghost use Rattle.io_buffers.specs.Steps.{steps_in};
    ghost use Rattle.io_buffers.specs.declared.views.View.TheVariants.{Joined, Spent};

    ghost both = { λ v w. Joined (steps_in v) (steps_in w) };

    ghost spent = { Spent };
}
