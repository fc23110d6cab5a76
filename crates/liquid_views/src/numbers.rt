//! Views of numbers, which are integers.
ghost use Rattle.std.specs.Prelude.{pos};
ghost use Rattle.liquid_scalar.specs.meaning.Scalar.{integer};
ghost use Rattle.liquid_value.specs.meaning.Tree.{scalar};

use crate::kind::ViewKind;
use crate::view::ValueView;
use liquid_scalar::{Scalar, ScalarCow};
use liquid_value::Value;
use std::alloc::{AllocError, Global};
use std::fmt;

impl ValueView for i8 {
    ghost tree = { λ n. scalar (integer n) };

    fn kind(&self) -> ViewKind<'_> {
        ViewKind::Scalar(ScalarCow::Integer(i64::from(*self)))
    }

    fn to_value(&self, _alloc: Global) -> Result<Value, AllocError> {
        Ok(Value::Scalar(Scalar::Integer(i64::from(*self))))
    }

    fn write_render<W: fmt::Write>(&self, f: &mut fmt::Formatter<W>) -> fmt::Result {
        write!(f, "{self}")
    }

    fn write_source<W: fmt::Write>(&self, f: &mut fmt::Formatter<W>) -> fmt::Result {
        write!(f, "{self}")
    }
}

impl ValueView for i16 {
    ghost tree = { λ n. scalar (integer n) };

    fn kind(&self) -> ViewKind<'_> {
        ViewKind::Scalar(ScalarCow::Integer(i64::from(*self)))
    }

    fn to_value(&self, _alloc: Global) -> Result<Value, AllocError> {
        Ok(Value::Scalar(Scalar::Integer(i64::from(*self))))
    }

    fn write_render<W: fmt::Write>(&self, f: &mut fmt::Formatter<W>) -> fmt::Result {
        write!(f, "{self}")
    }

    fn write_source<W: fmt::Write>(&self, f: &mut fmt::Formatter<W>) -> fmt::Result {
        write!(f, "{self}")
    }
}

impl ValueView for i32 {
    ghost tree = { λ n. scalar (integer n) };

    fn kind(&self) -> ViewKind<'_> {
        ViewKind::Scalar(ScalarCow::Integer(i64::from(*self)))
    }

    fn to_value(&self, _alloc: Global) -> Result<Value, AllocError> {
        Ok(Value::Scalar(Scalar::Integer(i64::from(*self))))
    }

    fn write_render<W: fmt::Write>(&self, f: &mut fmt::Formatter<W>) -> fmt::Result {
        write!(f, "{self}")
    }

    fn write_source<W: fmt::Write>(&self, f: &mut fmt::Formatter<W>) -> fmt::Result {
        write!(f, "{self}")
    }
}

impl ValueView for i64 {
    ghost tree = { λ n. scalar (integer n) };

    fn kind(&self) -> ViewKind<'_> {
        ViewKind::Scalar(ScalarCow::Integer(*self))
    }

    fn to_value(&self, _alloc: Global) -> Result<Value, AllocError> {
        Ok(Value::Scalar(Scalar::Integer(*self)))
    }

    fn write_render<W: fmt::Write>(&self, f: &mut fmt::Formatter<W>) -> fmt::Result {
        write!(f, "{self}")
    }

    fn write_source<W: fmt::Write>(&self, f: &mut fmt::Formatter<W>) -> fmt::Result {
        write!(f, "{self}")
    }
}

impl ValueView for u8 {
    ghost tree = { λ n. scalar (integer (pos n)) };

    fn kind(&self) -> ViewKind<'_> {
        ViewKind::Scalar(ScalarCow::Integer(i64::from(*self)))
    }

    fn to_value(&self, _alloc: Global) -> Result<Value, AllocError> {
        Ok(Value::Scalar(Scalar::Integer(i64::from(*self))))
    }

    fn write_render<W: fmt::Write>(&self, f: &mut fmt::Formatter<W>) -> fmt::Result {
        write!(f, "{self}")
    }

    fn write_source<W: fmt::Write>(&self, f: &mut fmt::Formatter<W>) -> fmt::Result {
        write!(f, "{self}")
    }
}

impl ValueView for u16 {
    ghost tree = { λ n. scalar (integer (pos n)) };

    fn kind(&self) -> ViewKind<'_> {
        ViewKind::Scalar(ScalarCow::Integer(i64::from(*self)))
    }

    fn to_value(&self, _alloc: Global) -> Result<Value, AllocError> {
        Ok(Value::Scalar(Scalar::Integer(i64::from(*self))))
    }

    fn write_render<W: fmt::Write>(&self, f: &mut fmt::Formatter<W>) -> fmt::Result {
        write!(f, "{self}")
    }

    fn write_source<W: fmt::Write>(&self, f: &mut fmt::Formatter<W>) -> fmt::Result {
        write!(f, "{self}")
    }
}

impl ValueView for u32 {
    ghost tree = { λ n. scalar (integer (pos n)) };

    fn kind(&self) -> ViewKind<'_> {
        ViewKind::Scalar(ScalarCow::Integer(i64::from(*self)))
    }

    fn to_value(&self, _alloc: Global) -> Result<Value, AllocError> {
        Ok(Value::Scalar(Scalar::Integer(i64::from(*self))))
    }

    fn write_render<W: fmt::Write>(&self, f: &mut fmt::Formatter<W>) -> fmt::Result {
        write!(f, "{self}")
    }

    fn write_source<W: fmt::Write>(&self, f: &mut fmt::Formatter<W>) -> fmt::Result {
        write!(f, "{self}")
    }
}
