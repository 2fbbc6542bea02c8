//! What is known of all that bytes from a console say. The functions here do nothing: each carries a law or a row.
ghost use Rattle.console_wire.specs.Laws.{ItemsAreTyped, ItemsOfParts, PieceOfParts};
ghost use Rattle.console_wire.specs.Rows.{RowOfItems};

/// Each item is a quit, or a line as a script's card may have it.
#[tactic(auto, using(crate::proofs::TypedLaws::items_are_typed))]
pub fn items_are_typed()
    ensures { ItemsAreTyped }
{}

/// It doesn't matter in which pieces bytes come.
#[tactic(auto, using(crate::proofs::Cuts::items_of_both, crate::proofs::Cuts::piece_of_both))]
pub fn parts_give_the_whole()
    ensures items { ItemsOfParts }
    ensures piece { PieceOfParts }
{}

/// Lines, quits and halves, worked out.
#[tactic(auto, using(crate::proofs::RowsComputed::row_of_items))]
pub fn row_of_items()
    ensures { RowOfItems }
{}
