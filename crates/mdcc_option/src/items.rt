//! Items, what readers saw of them, and what transactions do to them.
use mdcc_base::{BoundedList, Key, Plain, TxId};

/// The body of an item, at most 128 bytes.
pub type Body = BoundedList<u8, 128>;

/// One whole number for each attribute of the schema.
pub type Values = BoundedList<i64, 4>;

/// Transactions, ascending.
pub type Seen = BoundedList<TxId, 64>;

/// Attributes, ascending from 1, with the amounts that are added to them.
pub type Amounts = BoundedList<(u8, i64), 4>;

/// The keys of a transaction with the versions at which its options stand, in key order.
pub type WriteSet = BoundedList<(Key, u64), 8>;

/// What a key stands for.
#[derive(Debug, Default, Drop, PartialEq, Eq)]
pub struct Item {
    pub body: Body,
    pub values: Values,
}

/// What a reader saw of a key: the version, and the transactions whose deltas on it were in the
/// values.
#[derive(Debug, Default, Drop, PartialEq, Eq)]
pub struct Token {
    pub version: u64,
    pub seen: Seen,
}

/// What a read shows of a key. At version 0 there is no item.
#[derive(Debug, Default, Drop, PartialEq, Eq)]
pub struct Known {
    pub key: Key,
    pub token: Token,
    pub item: Option<Item>,
}

/// A new item for a key, by a writer that saw these deltas, or amounts that are added to an item.
#[derive(Debug, Drop, PartialEq, Eq)]
pub enum Update {
    Write(Item, Seen),
    Add(Amounts),
}

impl Default for Update {
    fn default() -> Update {
        Update::Add(BoundedList::new())
    }
}

/// What a transaction does to one key, at the version that its reader saw.
#[derive(Debug, Default, Drop, PartialEq, Eq)]
pub struct Part {
    pub key: Key,
    pub version: u64,
    pub update: Update,
}

/// The amounts that a transaction added to an item.
#[derive(Debug, Default, Drop, PartialEq, Eq)]
pub struct Delta {
    pub tx: TxId,
    pub amounts: Amounts,
}

impl Plain for Item {
    fn copy(&self) -> Item {
        Item {
            body: self.body.copy(),
            values: self.values.copy(),
        }
    }

    fn same(&self, other: &Item) -> bool {
        self.body.same(&other.body) && self.values.same(&other.values)
    }
}

impl Plain for Token {
    fn copy(&self) -> Token {
        Token {
            version: self.version,
            seen: self.seen.copy(),
        }
    }

    fn same(&self, other: &Token) -> bool {
        self.version == other.version && self.seen.same(&other.seen)
    }
}

impl Plain for Known {
    fn copy(&self) -> Known {
        Known {
            key: self.key,
            token: self.token.copy(),
            item: self.item.copy(),
        }
    }

    fn same(&self, other: &Known) -> bool {
        self.key.same(&other.key) && self.token.same(&other.token) && self.item.same(&other.item)
    }
}

impl Plain for Update {
    fn copy(&self) -> Update {
        match self {
            Update::Write(item, seen) => Update::Write(item.copy(), seen.copy()),
            Update::Add(amounts) => Update::Add(amounts.copy()),
        }
    }

    fn same(&self, other: &Update) -> bool {
        match (self, other) {
            (Update::Write(a, s), Update::Write(b, t)) => a.same(b) && s.same(t),
            (Update::Add(a), Update::Add(b)) => a.same(b),
            (Update::Write(_, _), Update::Add(_)) => false,
            (Update::Add(_), Update::Write(_, _)) => false,
        }
    }
}

impl Plain for Part {
    fn copy(&self) -> Part {
        Part {
            key: self.key,
            version: self.version,
            update: self.update.copy(),
        }
    }

    fn same(&self, other: &Part) -> bool {
        self.key.same(&other.key)
            && self.version == other.version
            && self.update.same(&other.update)
    }
}

impl Plain for Delta {
    fn copy(&self) -> Delta {
        Delta {
            tx: self.tx,
            amounts: self.amounts.copy(),
        }
    }

    fn same(&self, other: &Delta) -> bool {
        self.tx == other.tx && self.amounts.same(&other.amounts)
    }
}
