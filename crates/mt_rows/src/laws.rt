//! What holds of rows in order. Each law is a contract; its call does nothing.
ghost use Rattle.mt_rows.specs.Listing.{ListingsAreOne, RelationsAreOne};

/// Look-ups have one list of rows in order at most.
pub fn listings_are_one()
    ensures { ListingsAreOne }
{}

/// Rows in order that have a relation's look-ups, and no others, are just the rows of that relation.
pub fn relations_are_one()
    ensures { RelationsAreOne }
{}
