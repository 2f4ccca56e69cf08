//! What a walk over facts in cells does at each of them.
ghost use Rattle.std.specs.Prelude.{◌≡◌, ◌<◌, [], get_or, length};
ghost use Rattle.mdcc_def_messages.specs.Spelling.{fact_bytes};
ghost use Rattle.mdcc_def_messages.specs.WellFormed.{IsWellFormedFact};
ghost use Rattle.mdcc_def_messages.specs.declared.facts.Fact.{Fact as AFact};

use crate::FactCells;

/// What is known of the facts that a walk came by. It takes no memory.
pub trait FactStep: Drop {
    ghost step: { Self → AFact → Self };

    /// Takes the fact of a number in, which is read in the cells.
    fn take(&mut self, cells: &FactCells, number: u32)
        requires { number < length cells.now.encodings }
        ensures { (fact : AFact) → IsWellFormedFact fact → get_or cells.now.encodings number [] ≡ fact_bytes fact → self.new ≡ step self.old fact };
}
