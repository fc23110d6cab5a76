//! Laws of the loops and tables of the standard language, each as the contract of a function.
//!
//! `F` is the shape of the filters, and `V` the type of the register. The laws hold for all filters, all partials and all
//! parts of a block.
ghost use Rattle.liquid_plugins.specs.meaning.Chain.{FilterMeaning};
ghost use Rattle.liquid_laws.specs.laws.loops.ForLoops.{ForRuns, ForWrites, GoesOverChosen, TakesElse};
ghost use Rattle.liquid_laws.specs.laws.loops.Tables.{NilRuns, RowsExist, TableRuns, TableWrites};

use liquid_std::marks::HoldsMarks;

/// A loop goes over the items of its series after the first `offset` ones, at most `limit` of them, and in reverse order
/// if it is `reversed`. The order is turned last.
pub fn loop_goes_over_chosen<V: HoldsMarks>()
    ensures { GoesOverChosen V.Shape }
{}

/// A `for` takes the part after `else` exactly if it goes over no item.
pub fn for_takes_else<V: HoldsMarks>()
    ensures { TakesElse V.Shape }
{}

/// A `for` renders its body for each item, in order, under the frame of the item, in which `forloop` has the item's number
/// and how many items there are. Over no item it renders the part after `else`, if it has one. If it goes over nothing
/// since its series or an option is refused, it renders nothing.
pub fn for_renders_each_item<V: HoldsMarks, F>()
    ensures { (fresh : V.Shape) (m : FilterMeaning F) → ForRuns V.holds fresh m }
{}

/// So a `for` writes the texts of its bodies, up to the first `break`.
pub fn for_writes_its_bodies<V: HoldsMarks, F>()
    ensures { (fresh : V.Shape) (m : FilterMeaning F) → ForWrites V.holds fresh m }
{}

/// A `tablerow` writes the text between two cells and renders its body for each item in turn, and then writes the last
/// text.
pub fn tablerow_renders_each_item<V: HoldsMarks, F>()
    ensures { (fresh : V.Shape) (m : FilterMeaning F) → TableRuns V.holds fresh m }
{}

/// A `tablerow` over nil renders no table.
pub fn tablerow_over_nil<V: HoldsMarks, F>()
    ensures { (fresh : V.Shape) (m : FilterMeaning F) → NilRuns V.holds fresh m }
{}

/// So a `tablerow` writes rows of as many cells as it has columns, with fewer in the last row if the items do not fill it.
/// Each cell has its column and the text of a body. Without columns, all cells are in one row.
pub fn tablerow_writes_rows<V: HoldsMarks, F>()
    ensures { (fresh : V.Shape) (m : FilterMeaning F) → TableWrites V.holds fresh m }
{}

/// Any cells stand in such rows.
pub fn rows_exist<A>()
    ensures { RowsExist A }
{}
