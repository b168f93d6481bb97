use crate::{PageFile, PageItem, PageLine, Section, page_text, ticks};
use rnv_base::{List, ManagerKind, Text};
use std::alloc::{AllocError, Global};
use std::convert::{AsSlice, AsStr};
use std::test::Fail;

// The items of a table, a line for each: section, branch, title, number, note.
fn items(alloc: Global, table: &str) -> Result<List<PageItem>, Fail> {
    let mut items = List::empty(alloc);
    for row in table.lines() {
        let mut fields = row.split('|');
        let section = section(fields.next().ok_or("no section")?).ok_or("another section")?;
        items.push(PageItem {
            section,
            branch: Text::copied(alloc, fields.next().ok_or("no branch")?)?,
            title: Text::copied(alloc, fields.next().ok_or("no title")?)?,
            number: fields
                .next()
                .ok_or("no number")?
                .parse()
                .map_err(|_| "no number")?,
            note: Text::copied(alloc, fields.next().ok_or("no note")?)?,
        })?;
    }
    Ok(items)
}

fn section(name: &str) -> Option<Section> {
    Some(match name {
        "errored" => Section::Errored,
        "open" => Section::Live,
        "approval" => Section::Approval,
        "schedule" => Section::Schedule,
        "pending" => Section::Pending,
        "limited" => Section::Limited,
        "blocked" => Section::Blocked,
        _ => return None,
    })
}

// The files of a table, a line for each: path, manager, dependencies.
fn files(alloc: Global, table: &str) -> Result<List<PageFile>, Fail> {
    let mut files = List::empty(alloc);
    for row in table.lines() {
        let mut fields = row.split('|');
        files.push(PageFile {
            path: Text::copied(alloc, fields.next().ok_or("no path")?)?,
            manager: manager(fields.next().ok_or("no manager")?).ok_or("another manager")?,
            lines: dependencies(alloc, fields.next().ok_or("no list")?)?,
        })?;
    }
    Ok(files)
}

// Dependencies with a `;` behind each: package, value and why it is skipped, with an `=` between.
fn dependencies(alloc: Global, list: &str) -> Result<List<PageLine>, Fail> {
    let mut lines = List::empty(alloc);
    for dependency in list.split_terminator(';') {
        let mut fields = dependency.split('=');
        lines.push(PageLine {
            package: Text::copied(alloc, fields.next().ok_or("no package")?)?,
            value: Text::copied(alloc, fields.next().ok_or("no value")?)?,
            skip: Text::copied(alloc, fields.next().ok_or("no reason")?)?,
        })?;
    }
    Ok(lines)
}

fn manager(name: &str) -> Option<ManagerKind> {
    Some(match name {
        "cargo" => ManagerKind::Cargo,
        "npm" => ManagerKind::Npm,
        "dockerfile" => ManagerKind::Dockerfile,
        "regex" => ManagerKind::Regex,
        _ => return None,
    })
}

fn texts(alloc: Global, table: &str) -> Result<List<Text>, AllocError> {
    let mut texts = List::empty(alloc);
    for row in table.lines() {
        texts.push(Text::copied(alloc, row)?)?;
    }
    Ok(texts)
}

// A page of three tables.
fn page(alloc: Global, tables: (&str, &str, &str)) -> Result<Text, Fail> {
    let items = items(alloc, tables.0)?;
    let files = files(alloc, tables.1)?;
    let warnings = texts(alloc, tables.2)?;
    Ok(page_text(alloc, &items, &files, &warnings)?)
}

// The ticked names of a text, each with a bar behind it.
fn ticked(alloc: Global, text: &str) -> Result<String, AllocError> {
    let mut line = String::new(alloc);
    for name in ticks(alloc, &Text::copied(alloc, text)?)?.as_slice() {
        line.push_str(name.as_str())?;
        line.push_str("|")?;
    }
    Ok(line)
}

// A repository with a group, limits that let two requests through, and a file without dependencies.
const USUAL: (&str, &str, &str) = (
    "\
open|renovate/node-20.x|Update dependency node to 20.12.0-alpine|1|
open|renovate/react-18.x|Update dependency react to 18.3.1|2|
limited|renovate/types|Update types|0|
limited|renovate/lodash-5.x|Update dependency lodash to 5.0.0|0|
limited|renovate/react-19.x|Update dependency react to 19.0.0|0|
",
    "\
Dockerfile|dockerfile|node=20.11.1-alpine=;
empty/package.json|npm|
package.json|npm|lodash=^4.17.0=;react=18.2.0=;left-pad=1.3.0=;@types/node=20.1.0=;@types/react=18.0.1=;
",
    "",
);

const USUAL_PAGE: &str = "\
# Dependency Dashboard

## Open

- [ ] <!-- rebase-branch=renovate/node-20.x -->Update dependency node to 20.12.0-alpine (#1)
- [ ] <!-- rebase-branch=renovate/react-18.x -->Update dependency react to 18.3.1 (#2)

## Rate-Limited

- [ ] <!-- unlimit-branch=renovate/types -->Update types
- [ ] <!-- unlimit-branch=renovate/lodash-5.x -->Update dependency lodash to 5.0.0
- [ ] <!-- unlimit-branch=renovate/react-19.x -->Update dependency react to 19.0.0

## Detected Dependencies

- Dockerfile (dockerfile)
  - node 20.11.1-alpine
- package.json (npm)
  - lodash ^4.17.0
  - react 18.2.0
  - left-pad 1.3.0
  - @types/node 20.1.0
  - @types/react 18.0.1
";

// Every section, given in another order than the page has, and texts that look like boxes.
const WHOLE: (&str, &str, &str) = (
    "\
blocked|renovate/node-20.x|Update dependency node to 20.12.0-alpine|0|
limited|renovate/c|- [x] <!-- rebase-branch=renovate/d -->|0|
pending|renovate/p|Update p|0|
schedule|renovate/s|Update s|0|
approval|a\tb|Update\u{7f}a|0|
approval|renovate/b|Update b|0|
open|renovate/o|Update o|4294967295|
errored|renovate/fmt-10.x||0|tools.txt wanted 10.0.0, found nothing
errored|[x] <!-- rebase-branch=renovate/d -->||0|package.json wanted 2, found 1
",
    "\
[x].toml|regex|[x]=1=no index;b=2=;
Cargo.toml|cargo|serde==unreadable;
",
    "\
[x] <!-- rebase-branch=renovate/d -->
a/b.json: not readable
",
);

const WHOLE_PAGE: &str = "\
# Dependency Dashboard

## Errored

- renovate/fmt-10.x: tools.txt wanted 10.0.0, found nothing
- \\[x] <!-- rebase-branch=renovate/d -->: package.json wanted 2, found 1

## Open

- [ ] <!-- rebase-branch=renovate/o -->Update o (#4294967295)

## Pending Approval

- [ ] <!-- approve-branch=a b -->Update a
- [ ] <!-- approve-branch=renovate/b -->Update b
- [ ] <!-- approve-all -->Approve all of these

## Awaiting Schedule

- [ ] <!-- unschedule-branch=renovate/s -->Update s

## Pending Status Checks

- [ ] <!-- unpend-branch=renovate/p -->Update p

## Rate-Limited

- [ ] <!-- unlimit-branch=renovate/c -->- [x] <!-- rebase-branch=renovate/d -->

## Ignored or Blocked

- [ ] <!-- recreate-branch=renovate/node-20.x -->Update dependency node to 20.12.0-alpine

## Warnings

- \\[x] <!-- rebase-branch=renovate/d -->
- a/b.json: not readable

## Detected Dependencies

- \\[x].toml (custom.regex)
  - [x] 1 (skipped: no index)
  - b 2
- Cargo.toml (cargo)
  - serde  (skipped: unreadable)
";

const EMPTY_PAGE: &str = "\
# Dependency Dashboard

## Detected Dependencies

None detected
";

#[test]
fn writes_pages(rt: HostRuntime) -> Result<(), Fail> {
    let alloc = rt.alloc();
    for (tables, want) in [
        (USUAL, USUAL_PAGE),
        (WHOLE, WHOLE_PAGE),
        (("", "", ""), EMPTY_PAGE),
    ] {
        let page = page(alloc, tables)?;
        assert!(rt; page.as_str() == want, "{page:?}");
        assert!(rt; ticks(alloc, &page)?.is_empty(), "{page:?}");
    }
    assert_eq!(rt; USUAL_PAGE.len(), 654);
    Ok(())
}

#[test]
fn reads_ticks(rt: HostRuntime) -> Result<(), Fail> {
    let alloc = rt.alloc();
    for (text, want) in [
        ("", ""),
        ("- [x] <!-- retry-branch=b -->", ""),
        ("- [X] <!-- rebase-branch=b -->", "b|"),
        (" - [x] <!-- rebase-branch=b -->", ""),
        ("- [ ] <!-- rebase-branch=b -->", ""),
        ("- [x] <!-- rebase-branch=b-->", ""),
        ("- [x] <!-- rebase-branch=a b -->", ""),
        ("- [x] <!-- rebase-branch= -->", "|"),
        ("- [x] <!-- rebase-branch=b -->\r", "b|"),
        (
            "- [x] <!-- unpend-branch=b -->Title\r\n- [x] <!-- unlimit-branch=a -->\n- [X] <!-- recreate-branch=b -->",
            "b|a|",
        ),
        (
            "- [ ] <!-- approve-branch=a -->\n- [x] <!-- unschedule-branch=b -->\n",
            "b|",
        ),
        (
            "- [ ] <!-- approve-branch=a -->\n- [x] <!-- approve-branch=c -->\n- [ ] <!-- rebase-branch=d -->\n- [x] <!-- approve-all -->Approve all of these\n- [ ] <!-- approve-branch=e -->",
            "a|c|e|",
        ),
    ] {
        assert!(rt; ticked(alloc, text)?.as_str() == want, "{text}");
    }
    Ok(())
}

// What is ticked on a page once an `x` stands in its boxes that begin so.
#[test]
fn reads_ticks_of_a_page(rt: HostRuntime) -> Result<(), Fail> {
    let alloc = rt.alloc();
    for (page, marker, want) in [
        (
            USUAL_PAGE,
            "unlimit-branch=renovate/types",
            "renovate/types|",
        ),
        (
            USUAL_PAGE,
            "rebase-branch=",
            "renovate/node-20.x|renovate/react-18.x|",
        ),
        (WHOLE_PAGE, "unlimit-branch=renovate/c", "renovate/c|"),
        (WHOLE_PAGE, "recreate-branch=", "renovate/node-20.x|"),
        (WHOLE_PAGE, "approve-all", "renovate/b|"),
    ] {
        let empty = format!(in alloc; "- [ ] <!-- {marker}")?;
        let full = format!(in alloc; "- [x] <!-- {marker}")?;
        let page = page.replace(alloc, empty.as_str(), full.as_str())?;
        assert!(rt; ticked(alloc, page.as_str())?.as_str() == want, "{page}");
    }
    Ok(())
}
