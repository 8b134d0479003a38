use std::marker::Brand;

/// The name of a bus that a live run is on, by which types know what the reader of received frames holds, in what
/// lines frames stand there, in what lines NMT messages are written, what their writer had before, and what the reader
/// of typed lines holds. A frame that was received on another bus, or a line typed for another, has another type.
pub trait BusName {
    ghost use Rattle.std.specs.Prelude.{ℕ, List, Option};
    ghost use Rattle.cm_can.specs.declared.format.Format.{Format as Lines};

    /// What the reader of received frames holds, where that is known.
    ghost text: { Option (List ℕ) };

    /// In what lines frames stand there.
    ghost format: { Lines };

    /// In what lines NMT messages are written.
    ghost message_format: { Lines };

    /// What the writer of messages had.
    ghost before: { Option (List ℕ) };

    /// What the writers had by which no NMT message is written: of none that of error control, of a number that of this worker, counted
    /// from 0.
    ghost had: { Option ℕ → Option (List ℕ) };

    /// What the reader of typed lines holds, where that is known.
    ghost typed: { Option (List ℕ) };
}

impl BusName for Brand {
    ghost use Rattle.std.specs.Prelude.{None};
    ghost use Rattle.cm_can.specs.declared.format.Format.TheVariants.{CanUtils};

    ghost text = { None };

    ghost format = { CanUtils };

    ghost message_format = { CanUtils };

    ghost before = { None };

    ghost had = { λ _. None };

    ghost typed = { None };
}
