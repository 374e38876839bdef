// This crate writes a graph in words as its written record: it numbers the nodes, measures the record, and lets the one encoder write it
// where it fits. Marks of the links can be written beside the record. The crate knows graphs in words and a record's bytes; it knows no
// table.

#![tactic(auto)]

ghost use Rattle.std.specs.Prelude.{◌≡◌};

pub mod canonical;
pub mod marks;

// Why a graph is not written: document 01's refusals 11 and 8.
#[derive(Clone, Copy)]
pub enum Unwritten {
    TooLarge,
    NoRoom,
}

// Why a graph is not written with marks beside it: it is not written at all, or there is no room for the marks.
#[derive(Clone, Copy)]
pub enum Unmarked {
    Unwritten(Unwritten),
    NoMarkRoom,
}

impl From<Unwritten> for Unmarked {
    ghost use Rattle.encode.specs.declared.Unmarked.TheVariants.{Unwritten};

    ghost from_gives = { λ why unmarked. unmarked ≡ Unwritten why };

    fn from(why: Unwritten) -> Unmarked {
        Unmarked::Unwritten(why)
    }
}
