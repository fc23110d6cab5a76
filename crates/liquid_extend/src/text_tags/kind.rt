//! Kinds of text tags: how each describes itself, and the text that it writes.
ghost use Rattle.std.specs.Prelude.{◌≡◌, string_bytes};
ghost use Rattle.liquid_error.specs.meaning.Told.{Gives};
ghost use Rattle.liquid_filters.specs.meaning.Given.{given};
ghost use Rattle.liquid_filters.specs.meaning.Rows.{IsRow};
ghost use Rattle.liquid_extend.specs.meaning.text_tags.Sense.{TextTagSense, answer_sense, filter_sense};

use liquid_error::Error;
use liquid_filters::{CallArguments, FilterKind, FilterRow};
use liquid_value::Value;
use std::alloc::Global;

/// A kind of tag that writes a text in one turn.
///
/// It sees the values of its arguments alone, so globals that are hidden from a template are hidden from it too.
pub trait TextTag: Clone + Copy + Drop {
    // its name, what it takes, and the text that it writes
    ghost sense: { Self → TextTagSense };

    /// Returns the description of the tag: its name, what it does, its positional parameters and its keywords.
    fn row(&self) -> FilterRow
        ensures { IsRow (filter_sense (sense self.now)) result };

    /// Returns the text that is written, or the error that ends the rendering.
    fn answer(&self, alloc: Global, arguments: &CallArguments<'_>) -> Result<String, Error>
        ensures { Gives string_bytes result ((sense self.now).answers (given arguments.now)) };
}

/// A text tag as a filter, which returns the tag's text for any input.
#[derive(Debug, Clone, Copy, Drop)]
pub struct TagAnswer<K> {
    pub tag: K,
}

impl<K: TextTag> FilterKind for TagAnswer<K> {
    ghost sense = { answer_sense K.sense };

    fn row(&self) -> FilterRow {
        self.tag.row()
    }

    fn answer(
        &self,
        alloc: Global,
        _input: &Value,
        arguments: &CallArguments<'_>,
    ) -> Result<Value, Error> {
        Ok(Value::scalar(self.tag.answer(alloc, arguments)?))
    }
}
