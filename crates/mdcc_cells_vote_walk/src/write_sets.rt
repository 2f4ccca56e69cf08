//! Write sets of transactions, read in the votes that hold their choices.
ghost use Rattle.std.specs.Prelude.{◌≡◌, ◌<◌, [], get_or, length};
ghost use Rattle.mdcc_def_messages.specs.Spelling.{fact_bytes};
ghost use Rattle.mdcc_def_messages.specs.WellFormed.{IsWellFormedFact};
ghost use Rattle.mdcc_def_messages.specs.declared.facts.Fact.{Fact as AFact};
ghost use Rattle.mdcc_def_protocol.specs.Facts.{write_sets_from};
ghost use Rattle.mdcc_struct.specs.Maps.{value_of};
ghost use Rattle.mdcc_cells_vote_walk.specs.WriteSets.{choice_any, write_set_in};

use crate::heads::head_any;
use crate::marks::choice_of;
use mdcc_base::TxId;
use mdcc_cells_facts::FactCells;
use mdcc_option::{Choice, WriteSet};

// The choice of a transaction that the fact of a number has in any instance.
fn choice_any(cells: &FactCells, number: u32, tx: &TxId) -> Option<Choice>
    requires { number < length cells.now.encodings }
    ensures { result ≡ choice_any tx.now (get_or cells.now.encodings number []) }
{
    match head_any(&cells.start(number)) {
        Some(head) => choice_of(cells, number, &head, tx),
        None => None,
    }
}

// Its write set.
fn write_set_in(cells: &FactCells, number: u32, tx: &TxId) -> Option<WriteSet>
    requires { number < length cells.now.encodings }
    ensures { result ≡ write_set_in tx.now (get_or cells.now.encodings number []) }
{
    match choice_any(cells, number, tx) {
        Some(choice) => Some(choice.write_set),
        None => None,
    }
}

/// The write set of a transaction by the fact of a number, where that is a vote that holds its choice,
/// accepted or offered, in whatever instance. It takes no memory.
pub fn write_set_at(cells: &FactCells, number: u32, tx: &TxId) -> Option<WriteSet>
    requires { number < length cells.now.encodings }
    ensures { (fact : AFact) → IsWellFormedFact fact → get_or cells.now.encodings number [] ≡ fact_bytes fact → result ≡ value_of (write_sets_from fact) tx.now }
{
    write_set_in(cells, number, tx)
}
