//! Laws of the loops and tables of the standard language.

pub mod laws;

pub use laws::{
    for_renders_each_item, for_takes_else, for_writes_its_bodies, loop_goes_over_chosen,
    rows_exist, tablerow_over_nil, tablerow_renders_each_item, tablerow_writes_rows,
};
