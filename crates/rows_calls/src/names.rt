//! Places, names that come again, and which of them stand.

use just_lang_rules::{fault_spot, source_limit_spot};
use just_lang_spots::{Entry, Named, Spot, first_of, first_repeated, index_of, standing};
use just_lang_syntax::{AstItem, FaultKind, Name};
use just_path_text::{NoMemory, Seq, Text};
use std::alloc::Global;

/// A place in the file of that number.
fn spot(file: usize, line: usize) -> Spot {
    Spot {
        file,
        line,
        column: 10,
    }
}

/// A name in that line of the first file.
fn named(name: &str, line: usize) -> Named<'_> {
    Named {
        name,
        spot: spot(0, line),
    }
}

/// The item `unexport NAME` in that line.
fn unexport(alloc: Global, text: &str, line: usize) -> Result<AstItem, NoMemory> {
    let text = Text::from_str(alloc, text)?;
    let name = Name {
        text,
        line,
        column: 10,
    };
    Ok(AstItem::Unexport {
        name,
        comment: None,
    })
}

/// The item `unexport a` in each of these lines.
fn unexports(alloc: Global, lines: &[usize]) -> Result<Vec<AstItem>, NoMemory> {
    let mut items = Vec::new(alloc);
    for line in lines {
        items.push(unexport(alloc, "a", *line)?)?;
    }
    Ok(items)
}

/// The file of the one item that stands, where one alone does.
fn only_file(kept: &[Entry<'_>]) -> Option<usize> {
    match kept {
        [one] => Some(one.file),
        _ => None,
    }
}

/// For two files, the second of which the first imports, the file of the one item that stands.
fn file_that_stands(alloc: Global, items: &[Entry<'_>]) -> Result<Option<usize>, NoMemory> {
    let importer = Seq::from(vec![in alloc; 0; 1]?);
    let importers = [Seq::new(alloc), importer];
    let kept = standing(alloc, &importers, items)?;
    Ok(only_file(kept.as_slice()))
}

/// The place of the last item of the name `a`.
fn last_place(alloc: Global, items: &[Entry<'_>]) -> Result<Option<usize>, NoMemory> {
    let index = index_of(alloc, items)?;
    Ok(index.place("a"))
}

#[test]
fn first_of_three_places_and_of_none(rt: HostRuntime) {
    let spots = [spot(1, 1), spot(0, 7), spot(0, 9)];
    let found = [
        first_of(&spots),
        fault_spot(FaultKind::Syntax, 0, &None),
        source_limit_spot(4096),
    ];
    assert_eq!(rt; found, [Some(spot(0, 7)), None, None]);
}

#[test]
fn second_of_two_equal_names(rt: HostRuntime) {
    let names = [named("a", 1), named("b", 2), named("a", 3)];
    assert_eq!(rt; first_repeated(rt.alloc(), &names), Ok(Some(spot(0, 3))));
}

/// The file of the item that stands and the last place of its name, where the first item is of the importing file and the
/// second of the imported one.
fn stands(alloc: Global, items: &[AstItem]) -> [Result<Option<usize>, NoMemory>; 2] {
    let [near, far] = items else {
        return [Ok(None), Ok(None)];
    };
    let items = [
        Entry {
            file: 0,
            item: near,
        },
        Entry { file: 1, item: far },
    ];
    [file_that_stands(alloc, &items), last_place(alloc, &items)]
}

#[test]
fn item_of_the_importing_file_stands(rt: HostRuntime) -> Result<(), NoMemory> {
    let alloc = rt.alloc();
    let items = unexports(alloc, &[2, 1])?;
    assert_eq!(rt; stands(alloc, items.as_slice()), [Ok(Some(0)), Ok(Some(1))]);
    Ok(())
}
