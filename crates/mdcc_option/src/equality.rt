//! Values are equal exactly where the tests of the definitions pass.
ghost use Rattle.std.specs.Prelude.{◌≡◌};
ghost use Rattle.mdcc_option.specs.Equality.{IsExact, txs_eq, ints_eq, amounts_eq, write_set_eq, item_eq, token_eq, update_eq, choice_eq, choices_eq, mark_eq, outcome_eq};

use crate::{Choice, Mark, Outcome, Token, Update};
use mdcc_base::Plain;

impl Token {
    /// Whether they are one token.
    pub fn is(&self, other: &Token) -> bool
        ensures { result ≡ token_eq self.now other.now }
    {
        self.same(other)
    }
}

impl Update {
    /// Whether they are one update.
    pub fn is(&self, other: &Update) -> bool
        ensures { result ≡ update_eq self.now other.now }
    {
        self.same(other)
    }
}

impl Choice {
    /// Whether they are one choice.
    pub fn is(&self, other: &Choice) -> bool
        ensures { result ≡ choice_eq self.now other.now }
    {
        self.same(other)
    }
}

impl Mark {
    /// Whether they are one mark.
    pub fn is(&self, other: &Mark) -> bool
        ensures { result ≡ mark_eq self.now other.now }
    {
        self.same(other)
    }
}

impl Outcome {
    /// Whether they are one outcome.
    pub fn is(&self, other: &Outcome) -> bool
        ensures { result ≡ outcome_eq self.now other.now }
    {
        self.same(other)
    }
}

/// Each test passes at equal values, and at no others.
pub fn equality_is_exact()
    ensures transactions { IsExact txs_eq }
    ensures numbers { IsExact ints_eq }
    ensures amounts { IsExact amounts_eq }
    ensures write_sets { IsExact write_set_eq }
    ensures items { IsExact item_eq }
    ensures tokens { IsExact token_eq }
    ensures updates { IsExact update_eq }
    ensures choices { IsExact choice_eq }
    ensures lists_of_choices { IsExact choices_eq }
    ensures marks { IsExact mark_eq }
    ensures outcomes { IsExact outcome_eq }
{}
