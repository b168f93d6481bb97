use crate::{DockerManager, keeps_tags};
use rnv_base::{List, SourceKind, Text};
use rnv_manager::{Edit, ExtractError, Found, Manager, all_fit, are_indexes, edit};
use std::alloc::{AllocError, Global};
use std::convert::{AsSlice, AsStr};
use std::test::Fail;

// Each line is a file and its finds, each as `PLACE NAME START VALUE;`. In a file `¶` is a line feed, `§` a carriage
// return, `→` a tab, `␋` U+000B and `␡` U+007F.
const CASES: &str =
    r#"FROM --platform=linux/amd64 localhost:5000/base:1.2 AS build¶from build¶FROM ${IMG}:3¶FROM node:20.1 AS web¶FROM scratch => stage localhost:5000/base 48 1.2;stage node 96 20.1;
FROM node:20.11.1-alpine => final node 10 20.11.1-alpine;
# a \¶FROM node:20.1 => final node 16 20.1;
RUN a \¶# b¶FROM node:20.1 => none
 => none
¶¶ →§¶# é ␡ => none
FROM host:5000/base => none
FROM host:5000/a:1/base => none
FROM host:5000/base:2 => final host:5000/base 20 2;
FROM a:1 AS build¶FROM build¶FROM BUILD AS x¶from b:2 => stage a 7 1;final b 52 2;
FROM a:1¶FROM b:2¶FROM c:3¶RUN d¶ => stage a 7 1;stage b 16 2;final c 25 3;
FROM a:1¶FROM b: => stage a 7 1;
FROM a:1¶FROM b c:2 => final a 7 1;
FROM a:1@sha256:0123¶FROM a@sha256:0123¶FROM $a:1¶FROM a:$v¶FROM a\b:1¶FROM a␡:1¶FROM a:␋¶FROM a¶FROM a: => none
FROM scratch:1 => final scratch 13 1;
FROM :1 => final  6 1;
FROM é:ü => final é 8 ü;
fRoM --PLATFORM=$P a:1 aS b => final a 21 1;
→FROM§ →a:1 →AS→b_C.d-1 §¶ => final a 10 1;
FROM --platform= a:1 => final a 19 1;
FROM¶FROM a:1 AS¶FROM a:1 b¶FROM a:1 AS 1b¶FROM a:1 AS b c¶FROM a:1 AS b/c¶FROM a:1 # b¶FROMa:1¶FROM --platform=a:1¶FROM --other=x a:1¶COPY a:1 => none
FROM a:1 \¶¶ # b¶FROM b:2¶FROM c:3 => final c 33 3;
FROM \ →§¶a:1 \¶FROM b:2 \ => none
FROM a:1¶RUN b\ c¶RUN d \ # e¶FROM f:2 => stage a 7 1;final f 37 2;
§# a \¶FROM b:1¶FROM c:2 => final c 23 2;
FROM a:1¶RUN <<EOF¶FROM b:2¶EOF¶FROM c:3 => final a 7 1;
FROM a:1¶RUN b < c < d¶FROM e:2 => stage a 7 1;final e 30 2;
# <<¶FROM a:1 => none"#;

// The text of a file in a line of cases.
fn file_of(alloc: Global, line: &str) -> Result<String, AllocError> {
    let line = line.replace(alloc, "¶", "\n")?;
    let line = line.as_str().replace(alloc, "§", "\r")?;
    let line = line.as_str().replace(alloc, "→", "\t")?;
    let line = line.as_str().replace(alloc, "␋", "\u{b}")?;
    line.as_str().replace(alloc, "␡", "\u{7f}")
}

// The finds as a line of cases has them. The package is the name.
fn shown(alloc: Global, found: &[Found]) -> Result<String, AllocError> {
    if found.is_empty() {
        return String::from_str(alloc, "none");
    }
    let mut line = String::new(alloc);
    for find in found {
        let Found {
            name,
            package,
            place,
            value,
            start,
            source,
        } = *find;
        let one = if package == name && source == SourceKind::Docker {
            format!(in alloc; "{place} {name} {start} {value};")?
        } else {
            format!(in alloc; "{place} {name} as {package};")?
        };
        line.push_str(one.as_str())?;
    }
    Ok(line)
}

// What a file gives, as a line of cases has it.
fn extracted(alloc: Global, file: &str) -> Result<String, AllocError> {
    match DockerManager.extract(alloc, file) {
        Ok(found) => shown(alloc, found.as_slice()),
        Err(ExtractError::BadSyntax) => String::from_str(alloc, "bad"),
        Err(ExtractError::Memory) => Err(AllocError),
    }
}

#[test]
fn finds_in_files(rt: HostRuntime) -> Result<(), Fail> {
    for line in CASES.lines() {
        let (file, wanted) = line.split_once(" => ").ok_or("a case")?;
        let file = file_of(rt.alloc(), file)?;
        let found = extracted(rt.alloc(), file.as_str())?;
        assert_eq!(rt; found.as_str(), wanted, "{line}");
    }
    Ok(())
}

// Each line is a text, and whether it may stand for a tag.
const TAGS: &str = "20.11.1-alpine|yes\n3_X.|yes\n-|yes\n|no\na b|no\n1:2|no\n1/2|no\n1+2|no\né|no";

#[test]
fn texts_that_may_stand_for_a_tag(rt: HostRuntime) -> Result<(), Fail> {
    for line in TAGS.lines() {
        let (text, wanted) = line.split_once('|').ok_or("a case")?;
        assert_eq!(rt; DockerManager.fits(text), wanted == "yes", "{line}");
    }
    Ok(())
}

// Each line is a file, a tag for each of its finds, where `=` leaves it, and the edited file.
const EDITS: &str =
    "FROM node:20.11.1-alpine|20.12.0-alpine|FROM node:20.12.0-alpine\nFROM --platform=1 1:1 AS b¶# 1:1¶FROM 1:1|= 2|FROM --platform=1 1:1 AS b¶# 1:1¶FROM 1:2\nFROM h:5/é:1§¶FROM a:é¶FROM c:22222|333 4 5|FROM h:5/é:333§¶FROM a:4¶FROM c:5\nFROM a:1|scratch|FROM a:scratch";

// The edits that a line has.
fn edits_of(alloc: Global, tags: &str) -> Result<List<Edit>, AllocError> {
    let mut edits = List::empty(alloc);
    for (index, tag) in tags.split(' ').enumerate() {
        if tag != "=" {
            let new_value = Text::copied(alloc, tag)?;
            edits.push(Edit { index, new_value })?;
        }
    }
    Ok(edits)
}

#[test]
fn only_the_chosen_tags_change(rt: HostRuntime) -> Result<(), Fail> {
    let alloc = rt.alloc();
    keeps_tags(&DockerManager);
    for line in EDITS.lines() {
        let (file, line) = line.split_once('|').ok_or("a case")?;
        let (tags, wanted) = line.split_once('|').ok_or("a case")?;
        let (file, wanted) = (file_of(alloc, file)?, file_of(alloc, wanted)?);
        let edits = edits_of(alloc, tags)?;
        match DockerManager.extract(alloc, file.as_str()) {
            Ok(found)
                if are_indexes(edits.as_slice(), found.len())
                    && all_fit(&DockerManager, edits.as_slice()) => {
                match edit(alloc, &DockerManager, file.as_str(), &edits) {
                    Ok(new) => assert_eq!(rt; new.as_slice(), wanted.as_str().as_bytes()),
                    Err(_) => return Err(Fail::from("not edited")),
                }
            }
            _ => return Err(Fail::from("no finds")),
        }
    }
    Ok(())
}
