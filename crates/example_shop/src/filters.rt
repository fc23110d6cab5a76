//! The shop's own filter, in addition to the standard ones.
ghost use Rattle.example_shop.specs.meaning.Filters.{quoted};

use liquid_core::Error;
use liquid_core::model::{Value, ValueRender};
use liquid_filters::{Beside, CallArguments, FilterKind, FilterPlugin, FilterRow, StdKind};
use std::alloc::Global;

/// The filter `quoted`.
#[derive(Debug, Clone, Copy)]
pub struct Quoted;

impl FilterKind for Quoted {
    ghost sense = { quoted };

    fn row(&self) -> FilterRow {
        FilterRow::new("quoted", "Puts a string in quotes.", &[])
    }

    fn answer(&self, alloc: Global, input: &Value, _: &CallArguments<'_>) -> Result<Value, Error> {
        let text = ValueRender::new(input);
        Ok(Value::scalar(format!(in alloc; "\"{text}\"")?))
    }
}

/// The shop's filters as plug-ins.
pub type ShopFilters = FilterPlugin<Beside<StdKind, Quoted>>;
