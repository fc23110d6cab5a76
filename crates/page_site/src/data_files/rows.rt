//! Rows of CSV as lists of objects.
ghost use Rattle.std.specs.Prelude.{◌≡◌, IfErr, IfOk, OnOk, map, option_map};
ghost use Rattle.csv.specs.Reading.{AreRecords, default_config, strip_bom};
ghost use Rattle.csv.specs.Records.{fields_of};
ghost use Rattle.csv.specs.declared.parser.State.TheVariants as st;
ghost use Rattle.liquid_value.specs.meaning.Tree.{no_members};
ghost use Rattle.liquid_value.specs.meaning.View.{view, items_view, members_view};
ghost use Rattle.page_site.specs.meaning.data_files.Sheet.{IsPlaced, SheetGiven, put_field, record_items, row_members, row_tree};

use crate::data_files::entry::put;
use crate::data_files::fault::DataFault;
use csv::{Error as CsvError, ErrorKind, ReaderBuilder, StringRecord};
use liquid_scalar::Scalar;
use liquid_value::{Array, Object, SharedObject, Value};
use std::alloc::{AllocError, Global};

/// Returns the rows of a text of CSV as objects. The first row has their names.
pub(crate) fn rows_of_csv(alloc: Global, text: &str) -> Result<Array, DataFault>
    ensures given { IfOk result (λ values. SheetGiven text.now (items_view values.items)) }
    ensures refused { IfErr result IsPlaced }
{
    let records = match records_of(alloc, text.as_bytes()) {
        Ok(records) => records,
        Err(error) => return Err(fault_of_csv(alloc, &error)),
    };
    Ok(items_of(alloc, records.as_slice())?)
}

/// Returns the objects of records, of which the first has the names.
fn items_of(alloc: Global, records: &[StringRecord]) -> Result<Array, AllocError>
    ensures { IfOk result (λ values. items_view values.items ≡ record_items (map fields_of records.now)) }
{
    match records.split_first() {
        Some((names, rows)) => objects_of(alloc, names, rows),
        None => Ok(Vec::new(alloc)),
    }
}

/// Returns every record of a text of CSV.
fn records_of(alloc: Global, text: &[u8]) -> Result<Vec<StringRecord>, CsvError>
    ensures { IfOk result (λ records. AreRecords default_config st.StartRecord (strip_bom text.now) (map fields_of records.items)) }
{
    let reader = ReaderBuilder::new()
        .has_headers(false)
        .from_reader(alloc, text);
    let mut records = Vec::new(alloc);
    for record in reader.into_records() {
        if records.push(record?).is_err() {
            return Err(CsvError::out_of_memory());
        }
    }
    Ok(records)
}

/// Returns the objects of rows.
fn objects_of(
    alloc: Global,
    names: &StringRecord,
    rows: &[StringRecord],
) -> Result<Array, AllocError>
    ensures { IfOk result (λ values. map view values.items ≡ map (λ row. row_tree (fields_of names.now) (fields_of row)) rows.now) }
{
    let mut values = Vec::with_capacity(alloc, rows.len())?;
    for row in rows {
        values.push(value_of_row(alloc, names, row)?)?;
    }
    Ok(values)
}

fn value_of_row(
    alloc: Global,
    names: &StringRecord,
    row: &StringRecord,
) -> Result<Value, AllocError>
    ensures { IfOk result (λ value. view value ≡ row_tree (fields_of names.now) (fields_of row.now)) }
{
    let object = object_of_row(alloc, names, row)?;
    Ok(Value::Object(SharedObject::shared(alloc, object)?))
}

/// Returns the object of a row's fields at their columns' names.
fn object_of_row(
    alloc: Global,
    names: &StringRecord,
    row: &StringRecord,
) -> Result<Object, AllocError>
    ensures { IfOk result (λ object. members_view object.entries ≡ row_members (fields_of names.now) (fields_of row.now) no_members) }
{
    let mut object = Object::new(alloc);
    for place in 0..names.len() {
        let name = names.get(place);
        let field = row.get(place);
        put_field(alloc, &mut object, name, field)?;
    }
    Ok(object)
}

/// Puts a field at its column's name, if there are both.
fn put_field(
    alloc: Global,
    object: &mut Object,
    name: Option<&str>,
    field: Option<&str>,
) -> Result<(), AllocError>
    ensures { OnOk result (members_view object.new.entries
        ≡ put_field (option_map (λ n. n.now) name.entry) (option_map (λ f. f.now) field.entry) (members_view object.old.entries)) }
{
    match (name, field) {
        (Some(name), Some(field)) => {
            let text = String::from_str(alloc, field)?;
            put(alloc, object, name, Value::Scalar(Scalar::Str(text)))
        }
        _ => Ok(()),
    }
}

/// Returns the fault of an error of CSV.
fn fault_of_csv(alloc: Global, error: &CsvError) -> DataFault
    ensures { IsPlaced result }
{
    match error.kind() {
        ErrorKind::UnequalLengths {
            pos,
            expected_len,
            len,
        } => {
            let line = match pos {
                Some(position) => usize::try_from(position.line()).unwrap_or(1),
                None => 1,
            };
            let cause = format!(in alloc;
                "the row has {len} fields, and the first row has {expected_len}"
            );
            match cause {
                Ok(cause) => DataFault::At {
                    line,
                    column: 1,
                    cause,
                },
                Err(_) => DataFault::Memory,
            }
        }
        ErrorKind::Utf8 { .. } => DataFault::at(alloc, 1, 1, "a field is not UTF-8"),
        ErrorKind::Io(_)
        | ErrorKind::OutOfMemory
        | ErrorKind::Serialize(_)
        | ErrorKind::Deserialize { .. } => DataFault::Memory,
    }
}
