ghost use Rattle.std.specs.Prelude.{◌≡◌, true, IfOk, IfErr};
ghost use Rattle.rnv_manager.specs.declared.found.ExtractError.TheVariants.{Memory};
ghost use Rattle.rnv_manager.specs.Finds.{views, AreCut};
ghost use Rattle.rnv_manager.specs.Marks.{finds_from};
ghost use Rattle.rnv_manager.specs.Tool.{IsTool, is_line, pieces};

use crate::{
    Edit, EditError, ExtractError, Found, Manager, Span, all_fit, are_indexes, edit, splice,
};
use rnv_base::{Bytes, List, SourceKind, Text};
use std::alloc::{AllocError, Global};
use std::convert::{AsSlice, AsStr};
use std::test::Fail;

// The value of a tool has five bytes at the end of a line of fifteen.
struct ToolManager;

fn is_line(file: &str) -> bool
    ensures { result ≡ is_line file.now }
{
    file.len() == 15 && file.as_bytes()[9] < 128
}

fn tools<'a>(alloc: Global, file: &'a str) -> Result<List<Found<'a>>, ExtractError>
    ensures finds { IfOk result (λ v. views v ≡ finds_from 0 (pieces file.now)) }
    ensures err { IfErr result (λ e. e ≡ Memory) }
    ensures cuts { IfOk result (λ v. AreCut file.now (views v)) }
{
    if !is_line(file) {
        return Ok(List::empty(alloc));
    }
    let mut found = List::empty(alloc);
    found.push(Found {
        name: "fmt",
        package: "fmt",
        place: "custom",
        value: &file[10..],
        start: 10,
        source: SourceKind::Npm,
    })?;
    Ok(found)
}

impl Manager for ToolManager {
    ghost reads = { λ m file ms. IsTool file ms };

    ghost is_fit = { λ m value. true };

    fn extract<'a>(
        &'a self,
        alloc: Global,
        file: &'a str,
    ) -> Result<List<Found<'a>>, ExtractError> {
        tools(alloc, file)
    }

    fn fits(&self, _value: &str) -> bool {
        true
    }

    ghost whole = { λ m file ms h. h.whole };
}

#[test]
fn texts_in_place_of_spans(rt: HostRuntime) -> Result<(), Fail> {
    let spans = [Span { start: 1, end: 2 }, Span { start: 4, end: 4 }];
    let mut texts = Vec::new(rt.alloc());
    texts.push(Text::copied(rt.alloc(), "")?)?;
    texts.push(Text::copied(rt.alloc(), "20")?)?;
    let mut into = Bytes::with_room(rt.alloc(), 16)?;
    splice("a1é", &spans, texts.as_slice(), &mut into);
    assert_eq!(rt; into.as_slice(), "aé20".as_bytes());
    Ok(())
}

fn edits_of(alloc: Global, rows: &[(usize, &str)]) -> Result<List<Edit>, AllocError> {
    let mut edits = List::empty(alloc);
    for (index, value) in rows {
        let new_value = Text::copied(alloc, value)?;
        edits.push(Edit {
            index: *index,
            new_value,
        })?;
    }
    Ok(edits)
}

// The edited file, where the manager reads the file and it has finds of these indexes.
fn edited<'a, M: Manager>(
    alloc: Global,
    manager: &'a M,
    file: &'a str,
    edits: &'a List<Edit>,
) -> Option<Result<Bytes, EditError>> {
    match manager.extract(alloc, file) {
        Ok(found) if are_indexes(edits.as_slice(), found.len()) => {
            Some(edit(alloc, manager, file, edits))
        }
        _ => None,
    }
}

#[test]
fn a_value_at_the_end_of_the_file(rt: HostRuntime) -> Result<(), Fail> {
    let edits = edits_of(rt.alloc(), &[(0, "9.9.1")])?;
    assert!(rt; all_fit(&ToolManager, edits.as_slice()));
    match edited(rt.alloc(), &ToolManager, "tool=fmt v9.9.9", &edits) {
        Some(Ok(file)) => assert_eq!(rt; file.as_slice(), "tool=fmt v9.9.1".as_bytes()),
        _ => return Err(Fail::from("not edited")),
    }
    Ok(())
}

#[test]
fn a_value_that_is_not_found_again(rt: HostRuntime) -> Result<(), Fail> {
    let edits = edits_of(rt.alloc(), &[(0, "10.0.0")])?;
    match edited(rt.alloc(), &ToolManager, "tool=fmt v9.9.9", &edits) {
        Some(
            Err(
                EditError::NotReadBack {
                    start,
                    wanted,
                    found,
                },
            ),
        ) => {
            assert_eq!(rt; start, 10);
            assert_eq!(rt; wanted.as_str(), "10.0.0");
            assert_eq!(rt; found.as_str(), "");
        }
        _ => return Err(Fail::from("another answer")),
    }
    Ok(())
}
