//! What walks are for: a question that goes over the entries of one key needs no others.
ghost use Rattle.std.specs.List.{filter, filter_map};
ghost use Rattle.std.specs.Prelude.{◌≡◌, [], Bool, List, None, Some, map, ℕ};
ghost use Rattle.mdcc_cells_chains.specs.Walks.{IsFound, entry_at, first_below, first_in, older, walk};

/// A walk comes by just the entries that pass a test, from the newest to the oldest: the entries at
/// its indices are the filtered ones, each step takes the first of those that are left, and before
/// an index it is the walk of the older entries.
pub fn walks_are_filtered<T>()
    ensures whole { (passes : T → Bool) (xs : List T) → filter_map (entry_at xs) (walk passes xs) ≡ filter passes xs }
    ensures found { (passes : T → Bool) (xs : List T) (i : ℕ) → first_in (walk passes xs) ≡ Some i → IsFound passes xs i }
    ensures next { (passes : T → Bool) (xs : List T) (i : ℕ) → first_in (walk passes (older i xs)) ≡ first_below i (walk passes xs) }
    ensures end { (passes : T → Bool) (xs : List T) → first_in (walk passes xs) ≡ None → filter passes xs ≡ [] }
{}

/// Where each entry has a key, the walk of a key is the walk of the entries with that key.
pub fn walks_by_key<T, K>()
    ensures { (key_of : T → K) (passes : K → Bool) (xs : List T) → walk passes (map key_of xs) ≡ walk (λ x. passes (key_of x)) xs }
{}
