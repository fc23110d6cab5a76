//! Data read from texts of three formats.
ghost use Rattle.std.specs.Prelude.{◌≡◌, ◌≢◌, IfOk, IfErr, None, Ok, Some};
ghost use Rattle.csv.specs.Reading.{strip_bom};
ghost use Rattle.liquid_json.specs.meaning.decimals.Given.{object_read};
ghost use Rattle.liquid_error.specs.meaning.Told.{told};
ghost use Rattle.liquid_value.specs.meaning.View.{members_view};
ghost use Rattle.page_site.specs.meaning.data_files.Document.{DataGiven, IsRefused, JsonRefused, TableGiven, TableRefused, ends_in, format_of};
ghost use Rattle.page_site.specs.meaning.data_files.Sheet.{IsPlaced};
ghost use Rattle.toml.specs.Errors.{IsMemory};

use crate::data_files::entry::put;
use crate::data_files::fault::{DataFault, place_of};
use crate::data_files::json_cause::fault_of_json;
use crate::data_files::rows::rows_of_csv;
use crate::data_files::tables::object_of_table;
use liquid_json::object_with_decimals;
use liquid_value::{Object, SharedArray, Value};
use std::alloc::Global;
use toml::de::Error as TomlError;

/// A format of data.
#[derive(Clone, Copy, Debug, Drop, PartialEq, Eq)]
pub enum Format {
    Json,
    Toml,
    Csv,
}

impl Format {
    /// Returns the format of a file by the ending of its name: `.json`, `.toml` or `.csv`.
    pub fn of_path(path: &str) -> Option<Format>
        ensures { result ≡ format_of path.now }
    {
        if ends_in(path, ".json") {
            Some(Format::Json)
        } else if ends_in(path, ".toml") {
            Some(Format::Toml)
        } else if ends_in(path, ".csv") {
            Some(Format::Csv)
        } else {
            None
        }
    }
}

fn ends_in(path: &str, ending: &str) -> bool
    ensures { result ≡ ends_in path.now ending.now }
{
    path.ends_with(ending)
}

/// Reads the object of a text. A list of CSV is the value of a name.
///
/// In JSON and TOML a number with a fraction is a decimal. A date of TOML is its text. The fields of CSV are texts, and
/// each row has as many as the first. A byte order mark is skipped.
pub fn read_data(alloc: Global, format: Format, name: &str, text: &str) -> Result<Object, DataFault>
    ensures given { IfOk result (λ object. DataGiven format name.now text.now (members_view object.entries)) }
    ensures refused { IfErr result (IsRefused format text.now) }
{
    match format {
        Format::Json => read_json(alloc, without_mark(text)),
        Format::Toml => read_toml(alloc, text),
        Format::Csv => {
            let rows = rows_of_csv(alloc, text)?;
            let mut object = Object::new(alloc);
            let value = Value::Array(SharedArray::shared(alloc, rows)?);
            put(alloc, &mut object, name, value)?;
            Ok(object)
        }
    }
}

/// Returns a text without the byte order mark at its start.
fn without_mark(text: &str) -> &str
    ensures { result.now ≡ strip_bom text.now }
{
    match text.strip_prefix("\u{feff}") {
        Some(rest) => rest,
        None => text,
    }
}

fn read_json(alloc: Global, text: &str) -> Result<Object, DataFault>
    ensures given { IfOk result (λ object. object_read text.now ≡ Some (Ok (members_view object.entries))) }
    ensures refused { IfErr result (JsonRefused text.now) }
{
    match object_with_decimals(alloc, text) {
        Ok(Ok(object)) => Ok(object),
        Ok(Err(error)) => Err(DataFault::Value(error)),
        Err(error) => Err(fault_of_json(alloc, text, &error)),
    }
}

/// Reads the object of a text of TOML.
fn read_toml(alloc: Global, text: &str) -> Result<Object, DataFault>
    ensures given { IfOk result (λ object. TableGiven text.now (members_view object.entries)) }
    ensures refused { IfErr result (TableRefused text.now) }
{
    match toml::table_from_str(alloc, text) {
        Ok(table) => match object_of_table(alloc, &table) {
            Ok(object) => Ok(object),
            Err(error) => Err(DataFault::Value(error)),
        },
        Err(error) => Err(fault_of_toml(alloc, text, &error)),
    }
}

/// Returns the fault of a text that is not TOML.
fn fault_of_toml(alloc: Global, text: &str, error: &TomlError) -> DataFault
    ensures placed { IsPlaced result }
    ensures memory { IsMemory error.now → result ≡ DataFault.Memory }
{
    match error.span() {
        Some(span) => {
            let (line, column) = place_of(text, span.start);
            DataFault::at(alloc, line, column, error.message())
        }
        None => DataFault::Memory,
    }
}
