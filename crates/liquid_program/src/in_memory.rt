//! The program run over files in memory.
ghost use Rattle.std.specs.Prelude.{◌≡◌, ◌↔◌, [], false, map, string_bytes};
ghost use Rattle.liquid_files.specs.meaning.InMemory.{bytes_at, names_at};
ghost use Rattle.liquid_program.specs.meaning.PagesCommand.{is_asked};
ghost use Rattle.liquid_program.specs.meaning.InMemory.{Shows};

use crate::run::run;
use liquid_files::InMemoryFolder;
use std::alloc::Global;

/// The result of a run of the program: its status, and what it wrote to its output and to its error stream.
#[derive(Debug, Drop)]
pub struct Ran {
    pub status: u8,
    pub out: Vec<u8>,
    pub err: Vec<u8>,
}

/// Runs the words over files in memory, with both streams in memory, as `run` does.
pub fn run_in_memory(alloc: Global, words: &[String], files: &mut InMemoryFolder) -> Ran
    ensures usage { (result.status ≡ 2) ↔ (is_asked (map string_bytes words.now) ≡ false) }
    ensures shows { Shows (map string_bytes words.now) (bytes_at files.old) (names_at files.old) (bytes_at files.new)
        result.out.items result.status }
    ensures quiet { result.status ≡ 0 → result.err.items ≡ [] }
{
    let mut out = Vec::new(alloc);
    let mut err = Vec::new(alloc);
    let status = run(alloc, words, files, &mut out, &mut err);
    Ran { status, out, err }
}
