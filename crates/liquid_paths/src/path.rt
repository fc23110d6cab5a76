//! A path: a list of indexes.
ghost use Rattle.std.specs.Prelude.{◌≡◌, ◌++◌, [], ◌∷◌, List, length, Some, IfOk, IfSome, OnOk, OnErr};
ghost use Rattle.std.specs.Iterator.{UpTo, at_most};
ghost use Rattle.std.specs.Iterator.SizeHint.{IsExactHint, IsWithinCount};
ghost use Rattle.std.specs.Slice.Iter.{iter_steps};
ghost use Rattle.std.specs.List.{flat_map};
ghost use Rattle.std.specs.Fmt.{WritesOnOk};
ghost use Rattle.liquid_paths.specs.meaning.Walk.{path_text};
ghost use Rattle.liquid_paths.specs.meaning.PathOf.{index_of, indexes_of, path_of, path_iter_rest, dotted};

use liquid_scalar::ScalarCow;
use std::alloc::{AllocError, Global};
use std::fmt::Display;
use std::{fmt, slice};

/// A list of indexes.
#[derive(Debug, Drop, PartialEq, Eq)]
pub struct Path<'s> {
    pub(crate) indexes: Vec<ScalarCow<'s>>,
}

impl<'s> Path<'s> {
    /// Returns the path of one index.
    pub fn with_index<I: Into<ScalarCow<'s>>>(
        alloc: Global,
        value: I,
    ) -> Result<Path<'s>, AllocError>
        ensures { IfOk result (λ p. (x : _) × I.converts value x × (path_of p ≡ index_of x ∷ [])) }
    {
        let mut indexes = Vec::new(alloc);
        indexes.push(value.into())?;
        Ok(Path { indexes })
    }

    /// Adds an index after the others. On an error the path is left as it was.
    pub fn push<I: Into<ScalarCow<'s>>>(&mut self, value: I) -> Result<(), AllocError>
        ensures ok { OnOk result ((x : _) × I.converts value x × (path_of self.new ≡ path_of self.old ++ index_of x ∷ [])) }
        ensures err { OnErr result (path_of self.new ≡ path_of self.old) }
    {
        self.indexes.push(value.into())?;
        Ok(())
    }

    /// Makes room for more indexes.
    pub fn reserve(&mut self, additional: usize) -> Result<(), AllocError>
        ensures { path_of self.new ≡ path_of self.old }
    {
        self.indexes.reserve(additional)
    }

    /// Returns the indexes.
    pub fn as_slice(&self) -> &[ScalarCow<'s>]
        ensures { indexes_of result.now ≡ path_of self.now }
    {
        self.indexes.as_slice()
    }

    /// Returns an iterator over the indexes.
    pub fn iter(&self) -> PathIter<'_, 's>
        ensures { indexes_of (path_iter_rest result) ≡ path_of self.now }
    {
        PathIter {
            indexes: self.indexes.iter(),
        }
    }
}

/// An iterator over the indexes of a path.
#[derive(Drop)]
pub struct PathIter<'p, 's> {
    indexes: slice::Iter<'p, ScalarCow<'s>>,
}

impl<'p, 's> Iterator for PathIter<'p, 's> {
    type Item = &'p ScalarCow<'s>;

    ghost next_gives = { λ s r t. iter_steps s.indexes r t.indexes };

    ghost remaining = { λ s. at_most (length (path_iter_rest s)) };

    fn next(&mut self) -> Option<&'p ScalarCow<'s>> {
        self.indexes.next()
    }

    /// Returns the number of indexes that are left, as both bounds.
    fn size_hint(&self) -> (usize, Option<usize>)
        ensures lower { IsWithinCount result.0 (at_most (length (path_iter_rest self.now))) }
        ensures upper { IfSome result.1 (UpTo (at_most (length (path_iter_rest self.now)))) }
        ensures exact { IsExactHint result (length (path_iter_rest self.now)) }
    {
        let left = self.indexes.len();
        (left, Some(left))
    }
}

impl ExactSizeIterator for PathIter<'_, '_> {
    fn len(&self) -> usize {
        self.indexes.len()
    }
}

impl<'s> Extend<ScalarCow<'s>> for Path<'s> {
    ghost extend_gives = { λ p xs q. path_of q ≡ path_of p ++ indexes_of xs };

    fn extend<U: IntoIterator<Item = ScalarCow<'s>>>(&mut self, iter: U) -> Result<(), AllocError> {
        self.indexes.extend(iter)
    }
}

impl<'s> Clone for Path<'s> {
    ghost is_clone = { λ p q. path_of q ≡ path_of p };

    fn clone(&self) -> Result<Path<'s>, AllocError> {
        let mut indexes = Vec::with_capacity(*self.indexes.allocator(), self.indexes.len())?;
        for index in &self.indexes {
            indexes.push(index.clone()?)?;
        }
        Ok(Path { indexes })
    }
}

/// Writes the indexes as they render, joined by `.`.
impl fmt::Display for Path<'_> {
    ghost output = { λ p. Some (path_text (path_of p)) };

    fn fmt<W: fmt::Write>(&self, f: &mut fmt::Formatter<W>) -> fmt::Result {
        write_path(self.indexes.as_slice(), f)
    }
}

/// Prints a list of indexes as a path.
#[derive(Clone, Copy)]
pub struct PathText<'p, 's> {
    pub indexes: &'p [ScalarCow<'s>],
}

impl fmt::Display for PathText<'_, '_> {
    ghost output = { λ p. Some (path_text (indexes_of p.indexes.now)) };

    fn fmt<W: fmt::Write>(&self, f: &mut fmt::Formatter<W>) -> fmt::Result {
        write_path(self.indexes, f)
    }
}

fn write_path<W: fmt::Write>(indexes: &[ScalarCow<'_>], f: &mut fmt::Formatter<W>) -> fmt::Result
    ensures { WritesOnOk W.write_str_gives f.old result (path_text (indexes_of indexes.now)) f.new }
{
    match indexes {
        [] => Ok(()),
        [first, rest @ ..] => {
            first.render().fmt(f)?;
            write_rest(rest, f)
        }
    }
}

fn write_rest<W: fmt::Write>(indexes: &[ScalarCow<'_>], f: &mut fmt::Formatter<W>) -> fmt::Result
    ensures { WritesOnOk W.write_str_gives f.old result (flat_map dotted (indexes_of indexes.now)) f.new }
{
    for index in indexes {
        write_next(index, f)?;
    }
    Ok(())
}

fn write_next<W: fmt::Write>(index: &ScalarCow<'_>, f: &mut fmt::Formatter<W>) -> fmt::Result
    ensures { WritesOnOk W.write_str_gives f.old result (dotted (index_of index.now)) f.new }
{
    f.write_str(".")?;
    index.render().fmt(f)
}
