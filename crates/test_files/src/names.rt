//! The files of the folder that the program is run in.

ghost use Rattle.std.specs.Prelude.{All, IfOk, IsSorted, string_cmp};
ghost use Rattle.test_files.specs.Names.{HasEnding};

use std::rt::Files;
use std::{fs, io};

/// Returns the names of the files that end with `ending`, in order.
pub fn ending_with<R: Files + AllocGlobal + Clone + Drop>(
    rt: &R,
    ending: &str,
) -> io::Result<Vec<String>>
    ensures ending { IfOk result (λ names. All (HasEnding ending.now) names.items) }
    ensures sorted { IfOk result (λ names. IsSorted string_cmp names.items) }
{
    let mut names = Vec::new(rt.alloc());
    for entry in fs::read_dir(rt, ".")? {
        let entry = entry?;
        if entry.file_name().ends_with(ending) {
            names.push(String::from_str(rt.alloc(), entry.file_name())?)?;
        }
    }
    names.sort_unstable();
    Ok(names)
}
