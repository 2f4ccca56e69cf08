//! What is said of a transaction or of one of its options.
ghost use Rattle.std.specs.Prelude.{◌≡◌, IfOk};
ghost use Rattle.mdcc_option.specs.Equality.{choices_eq, write_set_eq};
ghost use Rattle.mdcc_audit.specs.Values.{value_eq};
ghost use Rattle.mdcc_audit.specs.declared.values.Value.{Value as AValue};

use mdcc_base::bounded_list::same_values;
use mdcc_base::{HeapList, Key, Memory, Plain};
use mdcc_option::Choice;
use std::alloc::Global;

/// Choices that a transaction commits with, or that are accepted; the instances of a write set; or
/// that it aborts, or is rejected.
#[derive(Drop)]
pub enum Value {
    Choices(HeapList<Choice>),
    Places(HeapList<(Key, u64)>),
    Refusal,
}

// Whether they are the same choices.
fn same_choices(a: &[Choice], b: &[Choice]) -> bool
    ensures { result ≡ choices_eq a.now b.now }
{
    same_values(a, b)
}

// Whether they are one write set.
fn same_places(a: &[(Key, u64)], b: &[(Key, u64)]) -> bool
    ensures { result ≡ write_set_eq a.now b.now }
{
    same_values(a, b)
}

impl Value {
    /// Whether they are the same.
    pub(crate) fn is(&self, other: &Value) -> bool
        ensures { result ≡ value_eq self.now other.now }
    {
        match (self, other) {
            (Value::Choices(a), Value::Choices(b)) => same_choices(a.as_slice(), b.as_slice()),
            (Value::Places(a), Value::Places(b)) => same_places(a.as_slice(), b.as_slice()),
            (Value::Refusal, Value::Refusal) => true,
            _ => false,
        }
    }

    /// Whether it is these choices.
    pub(crate) fn is_choices(&self, choices: &[Choice]) -> bool
        ensures { result ≡ value_eq self.now (AValue.Choices choices.now) }
    {
        match self {
            Value::Choices(kept) => same_choices(kept.as_slice(), choices),
            _ => false,
        }
    }

    /// Whether it is this write set.
    pub(crate) fn is_places(&self, places: &[(Key, u64)]) -> bool
        ensures { result ≡ value_eq self.now (AValue.Places places.now) }
    {
        match self {
            Value::Places(kept) => same_places(kept.as_slice(), places),
            _ => false,
        }
    }

    /// Copies of these choices.
    pub(crate) fn of_choices(alloc: Global, choices: &[Choice]) -> Result<Value, Memory>
        ensures { IfOk result (λ value. value ≡ AValue.Choices choices.now) }
    {
        let mut copies = HeapList::new(alloc);
        for choice in choices {
            copies.push(choice.copy())?;
        }
        Ok(Value::Choices(copies))
    }

    /// A copy of a write set.
    pub(crate) fn of_places(alloc: Global, places: &[(Key, u64)]) -> Result<Value, Memory>
        ensures { IfOk result (λ value. value ≡ AValue.Places places.now) }
    {
        let mut copies = HeapList::new(alloc);
        for place in places {
            copies.push(*place)?;
        }
        Ok(Value::Places(copies))
    }
}
