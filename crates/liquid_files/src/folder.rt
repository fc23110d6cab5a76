//! Where the program's files come from.
ghost use Rattle.std.specs.Prelude.{◌≡◌, ℕ, Bool, true, false, List, [], ◌∷◌, Option, None, OnOk, OnErr, map, string_bytes};
ghost use Rattle.liquid_files.specs.meaning.Files.{Reads, Replaces, Request, Requests, Same, also, listing, reading};

use std::alloc::Global;

/// Why a file or a folder was not read, or a file not written.
#[derive(Clone, Copy, Debug, PartialEq, Eq)]
pub enum Unread {
    Fault,
    Memory,
}

/// Why a file or a folder is not read, as far as that is known.
#[derive(Clone, Copy, Debug, PartialEq, Eq)]
pub enum Why {
    NotThere,
    Folder,
    NoFolder,
    Forbidden,
    NoText,
    Unknown,
}

/// Files by their paths.
pub trait Folder {
    /// What is known of the file at a path: nothing, its bytes, or that it can't be read.
    ghost known: { Self → List ℕ → Option (Option (List ℕ)) } = { λ _ _. None };

    /// What is known of the folder at a path: nothing, the names of the files directly in it, or that it can't be listed.
    /// If `true` comes before the path, the names are the paths, within the folder, of the files in it and in its
    /// subfolders.
    ghost listed: { Self → Bool → List ℕ → Option (Option (List (List ℕ))) } = { λ _ _ _. None };

    /// What is known of the files that were read and the folders that were listed so far: nothing, or all of them, in
    /// order.
    ghost requests: { Self → Requests } = { λ _. None };

    /// Returns the bytes of the file at `path`.
    ///
    /// If something is known of the file, the returned bytes are those that are known. Which fault is returned is
    /// unspecified, and so is an out-of-memory error for a file that could be read. What is known of files and folders
    /// stays as it is.
    fn read(&mut self, alloc: Global, path: &str) -> Result<Vec<u8>, Unread>
        ensures reads { Reads (λ bytes. bytes.items) (known self.old path.now) result }
        ensures same { known self.new ≡ known self.old }
        ensures listed { listed self.new ≡ listed self.old }
        ensures requests { requests self.new ≡ also (requests self.old) (reading path.now ∷ []) };

    /// Returns the names of the files directly in the folder at `path`, in any order. Folders in it are left out. A
    /// name that is not UTF-8 is a fault.
    ///
    /// If something is known of the folder, the returned names are those that are known, and the rest is as for `read`.
    fn list(&mut self, alloc: Global, path: &str) -> Result<Vec<String>, Unread>
        ensures lists { Reads (λ names. map string_bytes names.items) (listed self.old false path.now) result }
        ensures same { known self.new ≡ known self.old }
        ensures listed { listed self.new ≡ listed self.old }
        ensures requests { requests self.new ≡ also (requests self.old) (listing false path.now ∷ []) };

    /// Returns the paths, within the folder at `path`, of the files in it and in its subfolders, in any order. Links are
    /// left out, so all these files are in the folder.
    ///
    /// The rest is as for `list`.
    fn list_tree(&mut self, alloc: Global, path: &str) -> Result<Vec<String>, Unread>
        ensures lists { Reads (λ paths. map string_bytes paths.items) (listed self.old true path.now) result }
        ensures same { known self.new ≡ known self.old }
        ensures listed { listed self.new ≡ listed self.old }
        ensures requests { requests self.new ≡ also (requests self.old) (listing true path.now ∷ []) };

    /// Puts a file of these bytes at `path`, in place of any other file there. The file is replaced as a whole: if there
    /// is a fault, what is at `path` stays.
    ///
    /// What is known of folders stays as it is. By default nothing can be written.
    fn replace(&mut self, _alloc: Global, path: &str, bytes: &[u8]) -> Result<(), Unread>
        ensures replaced { OnOk result (Replaces (known self.old) (known self.new) path.now bytes.now) }
        ensures same { OnErr result (Same (known self.old) (known self.new)) }
        ensures listed { listed self.new ≡ listed self.old }
        ensures requests { requests self.new ≡ requests self.old }
    {
        Err(Unread::Fault)
    }

    /// Makes the folders that the file at `path` is to be in, as far as they are missing. By default there are none to make.
    /// A folder that can't be made shows when the file is written.
    fn make_folders(&mut self, _alloc: Global, _path: &str)
        ensures same { known self.new ≡ known self.old }
        ensures listed { listed self.new ≡ listed self.old }
        ensures requests { requests self.new ≡ requests self.old }
    {}

    /// Returns `true` if both paths lead to one file. By default they do if they are alike.
    fn is_same_file(&self, first: &str, second: &str) -> bool {
        first == second
    }

    /// Says, where someone may watch, that this page of so many is next. By default it says nothing.
    fn announce(&mut self, _page: usize, _count: usize, _template: &str)
        ensures same { known self.new ≡ known self.old }
        ensures listed { listed self.new ≡ listed self.old }
        ensures requests { requests self.new ≡ requests self.old }
    {}

    /// Returns why the file at `path` can't be read as text, or if it should be listed, why the folder can't be. By
    /// default that is unknown.
    fn why(&mut self, _path: &str, _is_listed: bool) -> Why
        ensures same { known self.new ≡ known self.old }
        ensures listed { listed self.new ≡ listed self.old }
        ensures requests { requests self.new ≡ requests self.old }
    {
        Why::Unknown
    }
}
