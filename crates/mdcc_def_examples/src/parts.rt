//! Update words, and the parts that they stand for.
ghost use Rattle.std.specs.Prelude.{◌≡◌, pos, [], ◌∷◌, codes, Ok, Err};
ghost use Rattle.mdcc_option.specs.declared.items.Update.{Update};
ghost use Rattle.mdcc_option.specs.declared.items.Update.TheVariants.{Write};
ghost use Rattle.mdcc_def_language.specs.declared.events.UpdateWord.TheVariants.{New, Set, Add, Keep};
ghost use Rattle.mdcc_def_language.specs.declared.schedule.ResolveFault.TheVariants.{NoRead, NoItem};
ghost use Rattle.mdcc_def_language.specs.Resolve.{resolve};
ghost use Rattle.mdcc_def_examples.specs.Texts.{item_with, tx_with, reads_made, part_with};

// ---- Read 1 showed an item, read 2 was not made, read 3 showed none

pub fn resolved_new()
    ensures { resolve (New (codes "c") (item_with [] (pos 1 ∷ [])) ∷ []) reads_made ≡ Ok (part_with (codes "c") 0 (Write (item_with [] (pos 1 ∷ [])) []) ∷ []) }
{}

pub fn resolved_set()
    ensures { resolve (Set 1 (item_with [] (pos 1 ∷ [])) ∷ []) reads_made ≡ Ok (part_with (codes "a") 3 (Write (item_with [] (pos 1 ∷ [])) (tx_with 1 1 1 ∷ [])) ∷ []) }
{}

pub fn resolved_set_without_item()
    ensures { resolve (Set 3 (item_with [] (pos 1 ∷ [])) ∷ []) reads_made ≡ Ok (part_with (codes "b") 0 (Write (item_with [] (pos 1 ∷ [])) []) ∷ []) }
{}

pub fn resolved_add()
    ensures { resolve (Add 1 ((1, pos 5) ∷ []) ∷ []) reads_made ≡ Ok (part_with (codes "a") 3 (Update.Add ((1, pos 5) ∷ [])) ∷ []) }
{}

pub fn resolved_keep()
    ensures { resolve (Keep 1 ∷ []) reads_made ≡ Ok (part_with (codes "a") 3 (Write (item_with (255 ∷ []) (pos 7 ∷ [])) (tx_with 1 1 1 ∷ [])) ∷ []) }
{}

pub fn resolved_in_order()
    ensures { resolve (Set 3 (item_with [] []) ∷ Add 1 [] ∷ []) reads_made ≡ Ok (part_with (codes "b") 0 (Write (item_with [] []) []) ∷ part_with (codes "a") 3 (Update.Add []) ∷ []) }
{}

pub fn resolved_nothing()
    ensures { resolve [] reads_made ≡ Ok [] }
{}

pub fn no_read_zero()
    ensures { resolve (Keep 0 ∷ []) reads_made ≡ Err (NoRead 0) }
{}

pub fn no_read_above()
    ensures { resolve (Keep 4 ∷ []) reads_made ≡ Err (NoRead 4) }
{}

pub fn no_read_in_its_place()
    ensures { resolve (Keep 2 ∷ []) reads_made ≡ Err (NoRead 2) }
{}

pub fn no_item_of_keep()
    ensures { resolve (Keep 3 ∷ []) reads_made ≡ Err (NoItem (codes "b")) }
{}

pub fn no_item_of_add()
    ensures { resolve (Add 3 [] ∷ []) reads_made ≡ Err (NoItem (codes "b")) }
{}

pub fn no_read_before_no_item()
    ensures { resolve (Keep 3 ∷ Keep 9 ∷ Keep 8 ∷ []) reads_made ≡ Err (NoRead 9) }
{}
