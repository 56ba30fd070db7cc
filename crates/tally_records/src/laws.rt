//! Laws of the general definition of distinct items in order, which the rows of reports use.
ghost use Rattle.std.specs.Prelude.{List, Contains, ◌≡◌};
ghost use Rattle.std.specs.List.Sorted.{IsStrictlySortedBy};
ghost use Rattle.tally_records.specs.Sorted.{in_order};

/// Whatever the items, they come out in strictly ascending order.
pub fn ordered_items_ascend<T: Ord>()
    ensures { (items : List T) → IsStrictlySortedBy T.cmp (in_order T.cmp items) }
{}

/// What comes out is among the items.
pub fn ordered_items_are_all<T: Ord>()
    ensures { (item : T) → (items : List T) → Contains (in_order T.cmp items) item → Contains items item }
{}
