//! Files in memory.
ghost use Rattle.std.specs.Prelude.{◌≡◌, List, ℕ, Bool, None, Some, OnOk, OnErr, IfOk, true, false};
ghost use Rattle.std.specs.Prelude.{map, option_map, string_bytes, if◌then◌else◌};
ghost use Rattle.std.specs.Str.{bytes_eq};
ghost use Rattle.liquid_files.specs.meaning.Files.{Reads};
ghost use Rattle.liquid_files.specs.meaning.InMemory.{bytes_at, list_at, names_at};

use crate::folder::{Folder, Unread, Why};
use std::alloc::{AllocError, Global};
use std::collections::BTreeMap;

/// Files in memory, and lists of the names in folders, by their paths. Their content is known, so the contract of a run
/// over them names their bytes.
#[derive(Drop)]
pub struct InMemoryFolder {
    files: BTreeMap<String, Vec<u8>>,
    folders: BTreeMap<String, Vec<String>>,
    trees: BTreeMap<String, Vec<String>>,
}

impl InMemoryFolder {
    /// Returns a folder without files and lists. It takes no memory.
    pub fn new(alloc: Global) -> InMemoryFolder
        ensures files { (path : List ℕ) → bytes_at result path ≡ None }
        ensures folders { (is_deep : Bool) (path : List ℕ) → names_at result is_deep path ≡ None }
    {
        InMemoryFolder {
            files: BTreeMap::new(alloc),
            folders: BTreeMap::new(alloc),
            trees: BTreeMap::new(alloc),
        }
    }

    /// Puts a file of these bytes at a path, in place of any other. If memory runs out, the files stay as they were.
    pub fn add(&mut self, alloc: Global, path: &str, bytes: &[u8]) -> Result<(), AllocError>
        ensures added { OnOk result ((p : List ℕ) → bytes_at self.new p
            ≡ (if bytes_eq path.now p then Some bytes.now else bytes_at self.old p)) }
        ensures kept { OnErr result ((p : List ℕ) → bytes_at self.new p ≡ bytes_at self.old p) }
        ensures folders { names_at self.new ≡ names_at self.old }
    {
        let bytes = bytes.to_vec(alloc)?;
        self.files.insert(String::from_str(alloc, path)?, bytes)?;
        Ok(())
    }

    /// Puts the list of the names in a folder at its path, in place of any other. The files themselves are added by
    /// `add`. If memory runs out, the lists stay as they were.
    pub fn add_list(
        &mut self,
        alloc: Global,
        path: &str,
        names: Vec<String>,
    ) -> Result<(), AllocError>
        ensures added { OnOk result ((p : List ℕ) → names_at self.new false p
            ≡ (if bytes_eq path.now p then Some (map string_bytes names.items) else names_at self.old false p)) }
        ensures kept { OnErr result ((p : List ℕ) → names_at self.new false p ≡ names_at self.old false p) }
        ensures trees { (p : List ℕ) → names_at self.new true p ≡ names_at self.old true p }
        ensures files { (p : List ℕ) → bytes_at self.new p ≡ bytes_at self.old p }
    {
        self.folders.insert(String::from_str(alloc, path)?, names)?;
        Ok(())
    }

    /// Puts the list of the paths in a folder and its subfolders at its path, in place of any other, as `add_list` does.
    pub fn add_tree(
        &mut self,
        alloc: Global,
        path: &str,
        names: Vec<String>,
    ) -> Result<(), AllocError>
        ensures added { OnOk result ((p : List ℕ) → names_at self.new true p
            ≡ (if bytes_eq path.now p then Some (map string_bytes names.items) else names_at self.old true p)) }
        ensures kept { OnErr result ((p : List ℕ) → names_at self.new true p ≡ names_at self.old true p) }
        ensures lists { (p : List ℕ) → names_at self.new false p ≡ names_at self.old false p }
        ensures files { (p : List ℕ) → bytes_at self.new p ≡ bytes_at self.old p }
    {
        self.trees.insert(String::from_str(alloc, path)?, names)?;
        Ok(())
    }

    /// Returns the bytes of the file at a path, if there is one.
    pub fn bytes(&self, path: &str) -> Option<&[u8]>
        ensures { option_map (λ bytes. bytes.now) result ≡ bytes_at self.now path.now }
    {
        let bytes = self.files.get(path)?;
        Some(bytes.as_slice())
    }
}

impl Folder for InMemoryFolder {
    ghost known = { λ folder path. Some (bytes_at folder path) };

    ghost listed = { λ folder is_deep path. Some (names_at folder is_deep path) };

    fn read(&mut self, alloc: Global, path: &str) -> Result<Vec<u8>, Unread> {
        match self.files.get(path) {
            Some(bytes) => bytes.to_vec(alloc).map_err(|_| Unread::Memory),
            None => Err(Unread::Fault),
        }
    }

    fn list(&mut self, alloc: Global, path: &str) -> Result<Vec<String>, Unread> {
        listed_at(alloc, &self.folders, path)
    }

    fn list_tree(&mut self, alloc: Global, path: &str) -> Result<Vec<String>, Unread> {
        listed_at(alloc, &self.trees, path)
    }

    #[tactic(auto, using(crate::proofs::FilesInMemory::in_memory))]
    fn replace(&mut self, alloc: Global, path: &str, bytes: &[u8]) -> Result<(), Unread> {
        if self.folders.contains_key(path) {
            return Err(Unread::Fault);
        }
        self.add(alloc, path, bytes).map_err(|_| Unread::Memory)
    }

    fn why(&mut self, path: &str, is_listed: bool) -> Why {
        match (
            self.files.contains_key(path),
            self.folders.contains_key(path),
        ) {
            (true, _) => if is_listed {
                Why::NoFolder
            } else {
                Why::NoText
            },
            (false, true) => Why::Folder,
            (false, false) => Why::NotThere,
        }
    }
}

// The list at a path.
fn listed_at(
    alloc: Global,
    lists: &BTreeMap<String, Vec<String>>,
    path: &str,
) -> Result<Vec<String>, Unread>
    ensures { Reads (λ names. map string_bytes names.items) (Some (list_at lists.now path.now)) result }
{
    match lists.get(path) {
        Some(names) => copy_names(alloc, names).map_err(|_| Unread::Memory),
        None => Err(Unread::Fault),
    }
}

fn copy_names(alloc: Global, names: &Vec<String>) -> Result<Vec<String>, AllocError>
    ensures { IfOk result (λ copies. map string_bytes copies.items ≡ map string_bytes names.now.items) }
{
    let mut copies = Vec::with_capacity(alloc, names.len())?;
    for name in names {
        copies.push(name.clone()?)?;
    }
    Ok(copies)
}
