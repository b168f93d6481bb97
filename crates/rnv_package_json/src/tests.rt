use crate::NpmManager;
use rnv_base::{Bytes, List, SourceKind, Text};
use rnv_manager::{Edit, EditError, ExtractError, Manager, all_fit, are_indexes, edit, edit_kept};
use std::alloc::{AllocError, Global};
use std::convert::{AsSlice, AsStr};
use std::test::Fail;

#[test]
fn the_four_places(rt: HostRuntime) -> Result<(), Fail> {
    let file =
        "{\n  \"name\": \"shop\",\n  \"version\": \"1.0.0\",\n  \"dependencies\": {\"react\": \"18.2.0\", \"left-pad\": \"^1.3.0\"},\n  \"peerDependencies\" : { \"@types/node\" :\t\">=18 <21\" },\r\n  \"devDependencies\":{\"tape\":\"\"},\n  \"optionalDependencies\": {\"fsevents\": \"~2.3\", \"none\": null}\n}\n";
    let wanted = [
        ("dependencies", "react", "18.2.0", 71),
        ("dependencies", "left-pad", "^1.3.0", 93),
        ("peerDependencies", "@types/node", ">=18 <21", 145),
        ("devDependencies", "tape", "", 188),
        ("optionalDependencies", "fsevents", "~2.3", 232),
    ];
    let found = NpmManager
        .extract(rt.alloc(), file)
        .ok()
        .ok_or("a package")?;
    let found = found.as_slice();
    assert_eq!(rt; found.len(), wanted.len());
    for (i, (place, name, value, start)) in wanted.iter().enumerate() {
        assert_eq!(rt; found[i].place, *place);
        assert_eq!(rt; found[i].name, *name);
        assert_eq!(rt; found[i].package, *name);
        assert_eq!(rt; found[i].value, *value);
        assert_eq!(rt; found[i].start, *start);
        assert!(rt; found[i].source == SourceKind::Npm);
    }
    Ok(())
}

#[test]
fn numbers_of_finds(rt: HostRuntime) -> Result<(), Fail> {
    // None is bad syntax.
    let rows = [
        ("{}", Some(0)),
        (" \t\r\n{ \n} \r", Some(0)),
        ("{\"dependencies\":{}}", Some(0)),
        // Only a top member is a place, and only texts in it are values.
        ("{\"a\":{\"dependencies\":{\"b\":\"1\"}}}", Some(0)),
        ("{\"dependencies\":{\"a\":{\"version\":\"1\"}}}", Some(0)),
        (
            "{\"dependencies\":{\"a\":1.5e+3,\"b\":[\"1\"],\"c\":true,\"d\":\"2\"}}",
            Some(1),
        ),
        (
            "{\"dependencies\":\"1\",\"devDependencies\":[{\"a\":\"1\"}]}",
            Some(0),
        ),
        (
            "{ \"dependencies\" :\n{ \"a\" :\t\"1\" , \"a\"\r: \"2\" } }",
            Some(2),
        ),
        // Escapes and control characters.
        (
            "{\"dependencies\":{\"a\":\"\\u0041\",\"b\\n\":\"1\",\"c\":\"2\"}}",
            Some(1),
        ),
        (
            "{\"dependencies\":{\"a\":\"\u{7f}\",\"b\u{7f}\":\"1\",\"c\":\"é\"}}",
            Some(1),
        ),
        ("{\"dependencies\":{\"a\":\"1\n\"}}", None),
        ("{\"a\":\"\\x\"}", None),
        ("{\"a\":\"\\u00g0\"}", None),
        // Outside the grammar.
        ("", None),
        ("[]", None),
        ("{\"a\":1", None),
        ("{\"a\":1}}", None),
        ("{} x", None),
        ("{\"a\":1,}", None),
        ("{\"a\":[1,]}", None),
        ("{\"a\":01}", None),
        ("{\"a\":.5}", None),
        ("{\"a\":True}", None),
        ("{a:1}", None),
        ("{\"a\";1}", None),
        ("\u{feff}{}", None),
    ];
    for (file, count) in rows {
        match NpmManager.extract(rt.alloc(), file) {
            Ok(found) => assert_eq!(rt; Some(found.len()), count, "{file}"),
            Err(ExtractError::BadSyntax) => assert_eq!(rt; None, count, "{file}"),
            Err(ExtractError::Memory) => return Err(Fail::from("memory")),
        }
    }
    Ok(())
}

// The top object holds arrays, each in the one before, with so many brackets that open in all.
fn nested(alloc: Global, depth: usize) -> Result<String, AllocError> {
    let mut file = String::from_str(alloc, "{\"a\":")?;
    for _ in 1..depth {
        file.push_str("[")?;
    }
    for _ in 1..depth {
        file.push_str("]")?;
    }
    file.push_str("}")?;
    Ok(file)
}

#[test]
fn nesting(rt: HostRuntime) -> Result<(), Fail> {
    let file = nested(rt.alloc(), 127)?;
    assert!(rt; NpmManager.extract(rt.alloc(), file.as_str()).is_ok());
    let file = nested(rt.alloc(), 128)?;
    assert!(rt;
        matches!(
            NpmManager.extract(rt.alloc(), file.as_str()),
            Err(ExtractError::BadSyntax)
        )
    );
    Ok(())
}

#[test]
fn texts_that_may_stand_for_a_value(rt: HostRuntime) {
    let rows = [
        ("", true),
        ("^1.0.0 || >=2 <3", true),
        ("~", true),
        ("1\"2", false),
        ("'1'", false),
        ("1\\2", false),
        ("1\n", false),
        ("\u{7f}", false),
        ("é", false),
    ];
    for (value, fits) in rows {
        assert_eq!(rt; NpmManager.fits(value), fits, "{value}");
    }
}

fn edits_of(alloc: Global, rows: &[(usize, &str)]) -> Result<List<Edit>, AllocError> {
    let mut edits = List::empty(alloc);
    for (index, value) in rows {
        let new_value = Text::copied(alloc, value)?;
        edits.push(Edit {
            index: *index,
            new_value,
        })?;
    }
    Ok(edits)
}

// The edited file, where the file is read and has finds of these indexes. Values that fit are kept.
fn edited<'a>(
    alloc: Global,
    file: &'a str,
    edits: &'a List<Edit>,
) -> Option<Result<Bytes, EditError>> {
    match NpmManager.extract(alloc, file) {
        Ok(found) if are_indexes(edits.as_slice(), found.len()) => {
            if all_fit(&NpmManager, edits.as_slice()) {
                Some(edit_kept(alloc, &NpmManager, file, edits))
            } else {
                Some(edit(alloc, &NpmManager, file, edits))
            }
        }
        _ => None,
    }
}

#[test]
fn only_the_chosen_values_change(rt: HostRuntime) -> Result<(), Fail> {
    // The same text in several places.
    let file =
        "{\"version\":\"1.0.0\",\"dependencies\":{\"a\":\"1.0.0\",\"b\":\"1.0.0\"},\"x\":\"1.0.0\"}";
    let edits = edits_of(rt.alloc(), &[(1, "1.10.0")])?;
    let new = edited(rt.alloc(), file, &edits)
        .ok_or("finds")?
        .ok()
        .ok_or("edited")?;
    assert_eq!(rt;
        new.as_slice(),
        "{\"version\":\"1.0.0\",\"dependencies\":{\"a\":\"1.0.0\",\"b\":\"1.10.0\"},\"x\":\"1.0.0\"}".as_bytes()
    );
    // Each find, one of them empty and one edited to be, among text of several bytes a character.
    let file =
        "{\"é\":\"ü\",\"dependencies\":{\"a\":\"\",\"名\":\"2\"},\r\n\"devDependencies\":{\"ß\":\"3\"},\"z\":\"→\"}";
    let edits = edits_of(rt.alloc(), &[(0, "1.0.0"), (1, "^20.0.0"), (2, "")])?;
    let new = edited(rt.alloc(), file, &edits)
        .ok_or("finds")?
        .ok()
        .ok_or("edited")?;
    assert_eq!(rt;
        new.as_slice(),
        "{\"é\":\"ü\",\"dependencies\":{\"a\":\"1.0.0\",\"名\":\"^20.0.0\"},\r\n\"devDependencies\":{\"ß\":\"\"},\"z\":\"→\"}".as_bytes()
    );
    Ok(())
}

#[test]
fn texts_that_are_not_read_back(rt: HostRuntime) -> Result<(), Fail> {
    // The new value ends early; outside the grammar nothing is found.
    let rows = [("2\",\"b\":\"3", "2"), ("2\"", "")];
    for (value, other) in rows {
        let edits = edits_of(rt.alloc(), &[(0, value)])?;
        match edited(rt.alloc(), "{\"dependencies\":{\"a\":\"1\"}}", &edits) {
            Some(
                Err(
                    EditError::NotReadBack {
                        start,
                        wanted,
                        found,
                    },
                ),
            ) => {
                assert_eq!(rt; start, 22);
                assert_eq!(rt; wanted.as_str(), value);
                assert_eq!(rt; found.as_str(), other);
            }
            _ => return Err(Fail::from("another answer")),
        }
    }
    Ok(())
}
