//! Names that are spelled nearly as another one.

use std::alloc::{AllocError, Global};
use strsim::osa_distance;

/// How many names are kept.
const MOST: usize = 3;

/// The names nearest to another, of those that were offered. A name is near if it differs in at most a third of its
/// characters: one has to be left out, put in, changed, or swapped with the next. Letters of ASCII differ in more than
/// their case.
#[derive(Drop)]
pub struct NearNames {
    name: String,
    limit: usize,
    names: Vec<NearName>,
}

#[derive(Drop)]
struct NearName {
    name: String,
    distance: usize,
}

impl NearNames {
    /// Returns the names that are near this one, none yet.
    pub fn new(alloc: Global, name: &str) -> Result<NearNames, AllocError> {
        Ok(NearNames {
            name: name.to_ascii_lowercase(alloc)?,
            limit: (name.chars().count() / 3).min(MOST),
            names: Vec::new(alloc),
        })
    }

    /// Keeps the name if it is nearer than the third of those that are kept.
    pub fn offer(&mut self, alloc: Global, other: &str) -> Result<(), AllocError> {
        let lower = other.to_ascii_lowercase(alloc)?;
        let distance = osa_distance(alloc, self.name.as_str(), lower.as_str())?;
        if distance > self.limit || self.names.iter().any(|kept| kept.name.as_str() == other) {
            return Ok(());
        }
        let place = self
            .names
            .iter()
            .take_while(|kept| kept.comes_before(distance, other))
            .count();
        if place < MOST && place <= self.names.len() {
            let name = String::from_str(alloc, other)?;
            self.names.insert(place, NearName { name, distance })?;
            self.names.truncate(MOST);
        }
        Ok(())
    }

    /// Returns `true` if no name is kept.
    pub fn is_empty(&self) -> bool {
        self.names.is_empty()
    }

    /// Returns the names, the nearest first, with commas between them.
    pub fn join(&self, alloc: Global) -> Result<String, AllocError> {
        let mut text = String::new(alloc);
        for kept in self.names.iter() {
            if !text.is_empty() {
                text.push_str(", ")?;
            }
            text.push_str(kept.name.as_str())?;
        }
        Ok(text)
    }
}

impl NearName {
    fn comes_before(&self, distance: usize, other: &str) -> bool {
        self.distance < distance || self.distance == distance && self.name.as_str() < other
    }
}
