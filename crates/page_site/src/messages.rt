//! What is said of a file that is not written.
ghost use Rattle.std.specs.Prelude.{◌≡◌, ◌≢◌, OnOk, OnErr};

use crate::fault::{PageFault, SiteFault};
use liquid_files::{Folder, Why};
use std::io::Write;

/// Returns the status of the file at this path, and writes its fault to `err`, if it has one, with the reason for a file
/// that can't be read.
pub fn report<F: Folder, W: Write>(
    files: &mut F,
    source: &str,
    answer: Result<(), SiteFault>,
    err: &mut W,
) -> u8
    ensures ok { OnOk answer (result ≡ 0) }
    ensures fault { OnErr answer (result ≢ 0) }
    ensures quiet { result ≡ 0 → err.new ≡ err.old }
    ensures same { F.known files.new ≡ F.known files.old }
    ensures listed { F.listed files.new ≡ F.listed files.old }
    ensures requests { F.requests files.new ≡ F.requests files.old }
{
    match answer {
        Ok(()) => 0,
        Err(fault) => {
            write_fault(files, source, &fault, err);
            fault.status()
        }
    }
}

/// Writes the fault of the file at this path.
fn write_fault<F: Folder, W: Write>(files: &mut F, source: &str, fault: &SiteFault, err: &mut W)
    ensures same { F.known files.new ≡ F.known files.old }
    ensures listed { F.listed files.new ≡ F.listed files.old }
    ensures requests { F.requests files.new ≡ F.requests files.old }
{
    let _ = match fault {
        SiteFault::Page(PageFault::Unrendered(message)) => write!(err, "{message}"),
        SiteFault::Page(PageFault::NoLayout(_) | PageFault::LayoutAgain(_)) => {
            writeln!(err, "liquid: {source}: {fault}")
        }
        SiteFault::Unreadable(path) => {
            let reason = reason_of(files.why(path.as_str(), false));
            writeln!(err, "liquid: {fault}{reason}")
        }
        _ => writeln!(err, "liquid: {fault}"),
    };
}

/// Returns the reason as it ends a message, or nothing if it is not known.
pub fn reason_of(why: Why) -> &'static str {
    match why {
        Why::NotThere => ": there is no such file or folder",
        Why::Folder => ": it is a folder",
        Why::NoFolder => ": it is not a folder",
        Why::Forbidden => ": permission denied",
        Why::NoText => ": it is not UTF-8",
        Why::Unknown => "",
    }
}
