//! For each file those that import it, straight or through others.

ghost use Rattle.std.specs.Prelude.{ℕ, ◌≡◌, ◌<◌, nat_lt, filter, length, [], ◌∷◌, ◌++◌, if◌then◌else◌, IfOk, OnOk};
ghost use Rattle.just_lang_spots.specs.Graph.{IsGraph};
ghost use Rattle.just_lang_spots.specs.Met.{is_marked as is_marked_in};
ghost use Rattle.just_lang_spots.specs.Importers.{own_imports, is_reached, AreReached, AreImportersOf, AreImportersOfEach, AreImporters};

use super::reach::reached;
use just_path_text::{NoMemory, Seq};
use std::alloc::{AllocError, Global};

/// Those of a file's imports that are among so many files.
fn imports_below(alloc: Global, count: usize, imports: &[usize]) -> Result<Seq<usize>, NoMemory>
    ensures { IfOk result (λ ns. ns ≡ filter (λ n. nat_lt n count) imports.now) }
{
    let mut kept = Vec::new(alloc);
    'imports: for number in imports {
        if *number < count {
            kept.push(*number)?;
        }
    }
    Ok(Seq::from(kept))
}

/// Of each file's imports those that are files.
fn own_imports(alloc: Global, imports: &[Seq<usize>]) -> Result<Vec<Seq<usize>>, NoMemory>
    ensures { IfOk result (λ rows. rows.items ≡ own_imports imports.now) }
{
    let count = imports.len();
    let mut rows = Vec::new(alloc);
    'files: for row in imports {
        rows.push(imports_below(alloc, count, row.as_slice())?)?;
    }
    Ok(rows)
}

/// For each file the marks of those that it imports, straight or through others.
fn reached_of_each(alloc: Global, edges: &[Seq<usize>]) -> Result<Vec<Seq<bool>>, NoMemory>
    requires { IsGraph edges.now }
    ensures { IfOk result (λ table. AreReached edges.now table.items) }
{
    let mut table = Vec::new(alloc);
    'files: for file in 0..edges.len() {
        let marks = reached(alloc, edges, file)?;
        table.push(Seq::from(marks))?;
    }
    Ok(table)
}

/// Whether a file is marked.
#[tactic(auto, using(std::proofs::lemmas::List::get_or_read, std::proofs::lemmas::List::get_or_past))]
fn is_marked(marks: &[bool], file: usize) -> bool
    ensures { result ≡ is_marked_in marks.now file }
{
    if file < marks.len() {
        marks[file]
    } else {
        false
    }
}

/// Whether a file is marked in the row of another.
fn is_reached(table: &[Seq<bool>], importer: usize, file: usize) -> bool
    requires { importer < length table.now }
    ensures { result ≡ is_reached table.now importer file }
{
    is_marked(table[importer].as_slice(), file)
}

/// Adds a number, where the test holds.
fn keep_where(kept: &mut Vec<usize>, test: bool, number: usize) -> Result<(), AllocError>
    ensures { OnOk result (kept.new.items ≡ kept.old.items ++ (if test then number ∷ [] else [])) }
{
    if test {
        kept.push(number)?;
    }
    Ok(())
}

/// The files in whose marks the file is.
fn importers_of(alloc: Global, table: &[Seq<bool>], file: usize) -> Result<Seq<usize>, NoMemory>
    ensures { IfOk result (AreImportersOf table.now file) }
{
    let mut found = Vec::new(alloc);
    'importers: for importer in 0..table.len() {
        let imports = is_reached(table, importer, file);
        keep_where(&mut found, imports, importer)?;
    }
    Ok(Seq::from(found))
}

/// The files that each file is imported by, by the marks of those that each imports.
fn importers_of_each(alloc: Global, table: &[Seq<bool>]) -> Result<Vec<Seq<usize>>, NoMemory>
    ensures { IfOk result (λ winners. AreImportersOfEach table.now winners.items) }
{
    let mut winners = Vec::new(alloc);
    'files: for file in 0..table.len() {
        winners.push(importers_of(alloc, table, file)?)?;
    }
    Ok(winners)
}

/// For each file those that import it, straight or through others, by the imports of each, of which those count that are files.
///
/// The time and the memory that it takes grow with the square of the number of files.
pub fn winners_of(alloc: Global, imports: &[Seq<usize>]) -> Result<Vec<Seq<usize>>, NoMemory>
    ensures { IfOk result (λ winners. AreImporters imports.now winners.items) }
{
    let edges = own_imports(alloc, imports)?;
    let table = reached_of_each(alloc, edges.as_slice())?;
    let winners = importers_of_each(alloc, table.as_slice())?;
    Ok(winners)
}
