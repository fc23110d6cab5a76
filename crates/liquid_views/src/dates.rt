//! Views of dates and date times.
ghost use Rattle.liquid_scalar.specs.meaning.Scalar.{date, date_time};
ghost use Rattle.liquid_value.specs.meaning.Tree.{scalar};

use crate::kind::ViewKind;
use crate::view::ValueView;
use liquid_dates::{Date, DateTime};
use liquid_scalar::{Scalar, ScalarCow};
use liquid_value::Value;
use std::alloc::{AllocError, Global};
use std::fmt;

impl ValueView for Date {
    ghost tree = { λ d. scalar (date d) };

    fn kind(&self) -> ViewKind<'_> {
        ViewKind::Scalar(ScalarCow::Date(*self))
    }

    fn to_value(&self, _alloc: Global) -> Result<Value, AllocError> {
        Ok(Value::Scalar(Scalar::Date(*self)))
    }

    fn write_render<W: fmt::Write>(&self, f: &mut fmt::Formatter<W>) -> fmt::Result {
        write!(f, "{self}")
    }

    fn write_source<W: fmt::Write>(&self, f: &mut fmt::Formatter<W>) -> fmt::Result {
        write!(f, "{self}")
    }
}

impl ValueView for DateTime {
    ghost tree = { λ dt. scalar (date_time dt) };

    fn kind(&self) -> ViewKind<'_> {
        ViewKind::Scalar(ScalarCow::DateTime(*self))
    }

    fn to_value(&self, _alloc: Global) -> Result<Value, AllocError> {
        Ok(Value::Scalar(Scalar::DateTime(*self)))
    }

    fn write_render<W: fmt::Write>(&self, f: &mut fmt::Formatter<W>) -> fmt::Result {
        write!(f, "{self}")
    }

    fn write_source<W: fmt::Write>(&self, f: &mut fmt::Formatter<W>) -> fmt::Result {
        write!(f, "{self}")
    }
}
