ghost use Rattle.std.specs.Prelude.{◌≡◌, true};
ghost use Rattle.std.specs.List.{list_any};
ghost use Rattle.std.specs.Str.{bytes_eq};
ghost use Rattle.rnv_steps.specs.Told.{HaveBranches};

use crate::stepping::greatest;
use crate::{Terms, contents, end, made_items, work};
use rnv_base::{Bytes, List, Text, UpdateKind};
use rnv_outcome::{Item, ItemEdits, Rebase, Section, Shown};
use rnv_repo::{Branch, EditedFile, FileAt, Key, Repo, Request, RequestState, Write};
use std::alloc::{AllocError, Global};
use std::convert::{AsSlice, AsStr};
use std::test::Fail;

// Ten minutes after a clock hour began.
const MOMENT: u64 = 1_717_409_400;

const FILE: &str = "package.json";

fn text(alloc: Global, text: &str) -> Result<Text, AllocError> {
    Text::copied(alloc, text)
}

// A word is a name, and marks behind a `:`.
fn parts(word: &str) -> (&str, &str) {
    word.split_once(':').unwrap_or((word, ""))
}

// The words of a text.
fn words<'a>(alloc: Global, text: &'a str) -> Result<Vec<&'a str>, AllocError> {
    let mut words = Vec::new(alloc);
    for word in text.split(' ') {
        if !word.is_empty() {
            words.push(word)?;
        }
    }
    Ok(words)
}

fn keys(alloc: Global, name: &str, value: &str) -> Result<List<Key>, AllocError> {
    let mut keys = List::empty(alloc);
    keys.push(Key {
        file: text(alloc, FILE)?,
        package: text(alloc, name)?,
        new_value: text(alloc, value)?,
    })?;
    Ok(keys)
}

fn edited(alloc: Global, name: &str) -> Result<List<EditedFile>, AllocError> {
    let mut files = List::empty(alloc);
    files.push(EditedFile {
        path: text(alloc, FILE)?,
        bytes: Bytes::new(Vec::from_slice(alloc, name.as_bytes())?),
    })?;
    Ok(files)
}

fn edits(alloc: Global, name: &str, marks: &str) -> Result<ItemEdits, AllocError> {
    if marks.contains('!') {
        Ok(ItemEdits::Errored {
            path: text(alloc, FILE)?,
            wanted: text(alloc, "1.1.0")?,
            found: text(alloc, "")?,
        })
    } else {
        Ok(ItemEdits::Plain {
            files: edited(alloc, name)?,
        })
    }
}

fn rebase(marks: &str) -> Rebase {
    if marks.contains('<') {
        Rebase::Behind
    } else if marks.contains('=') {
        Rebase::Never
    } else {
        Rebase::Conflicted
    }
}

// An item with these marks: `!` errored, `?` it needs approval, `-` not scheduled, `+` kept current
// anyway, `~` pending, `<` made anew where its branch is behind the base, `=` never.
fn item(alloc: Global, word: &str) -> Result<Item, AllocError> {
    let (name, marks) = parts(word);
    Ok(Item {
        branch: text(alloc, name)?,
        title: text(alloc, name)?,
        body: text(alloc, "updates\n")?,
        closing: text(alloc, "end")?,
        labels: List::empty(alloc),
        kind: UpdateKind::Minor,
        priority: 0,
        updates: keys(alloc, name, "1.1.0")?,
        approval: marks.contains('?'),
        scheduled: !marks.contains('-'),
        anyway: marks.contains('+'),
        pending: marks.contains('~'),
        rebase: rebase(marks),
        edits: edits(alloc, name, marks)?,
    })
}

fn items(alloc: Global, all: &str) -> Result<List<Item>, AllocError> {
    let mut items = List::empty(alloc);
    for word in words(alloc, all)? {
        items.push(item(alloc, word)?)?;
    }
    Ok(items)
}

// Branches of revision 0 with these marks: `*` with another update, `@` with a problem.
fn branches(alloc: Global, all: &str) -> Result<List<Branch>, AllocError> {
    let mut branches = List::empty(alloc);
    for word in words(alloc, all)? {
        let (name, marks) = parts(word);
        let value = if marks.contains('*') {
            "1.0.1"
        } else {
            "1.1.0"
        };
        let problem = if marks.contains('@') { "slow" } else { "" };
        branches.push(Branch {
            name: text(alloc, name)?,
            revision: 0,
            updates: keys(alloc, name, value)?,
            files: edited(alloc, name)?,
            problem: text(alloc, problem)?,
        })?;
    }
    Ok(branches)
}

fn state(marks: &str) -> RequestState {
    if marks.contains('x') {
        RequestState::Closed
    } else if marks.contains('m') {
        RequestState::Merged
    } else {
        RequestState::Live
    }
}

// Requests from number 1 on with these marks: `x` closed, `m` merged, `h` made before the hour, `t` with
// another title, `@` with a problem.
fn requests(alloc: Global, all: &str) -> Result<List<Request>, AllocError> {
    let mut requests = List::empty(alloc);
    let mut number: u32 = 0;
    for word in words(alloc, all)? {
        number = number.saturating_add(1);
        let (name, marks) = parts(word);
        let title = if marks.contains('t') { "old" } else { name };
        let body = if marks.contains('@') {
            "updates\nProblem: slow\n\nend"
        } else {
            "updates\nend"
        };
        let made_at = if marks.contains('h') {
            MOMENT - 601
        } else {
            MOMENT - 600
        };
        requests.push(Request {
            number,
            branch: text(alloc, name)?,
            updates: keys(alloc, name, "1.1.0")?,
            title: text(alloc, title)?,
            body: text(alloc, body)?,
            labels: List::empty(alloc),
            made_at,
            state: state(marks),
        })?;
    }
    Ok(requests)
}

// What the words of a case say: the limits `hourly`, `concurrent` and `branches` (none, else 1 or 2 by
// the mark), `closed` that closed requests block, `page` that a page is kept and written, `due`, `later`
// that the base is at revision 1; and each other word is ticked.
#[derive(Drop)]
struct Setting {
    terms: Terms,
    page: bool,
    due: bool,
    revision: u32,
}

fn read_setting(alloc: Global, all: &str) -> Result<Setting, AllocError> {
    let mut setting = Setting {
        terms: Terms {
            moment: MOMENT,
            hourly: 0,
            concurrent: 0,
            branches: 0,
            heeds_closed: false,
            ticked: List::empty(alloc),
        },
        page: false,
        due: false,
        revision: 0,
    };
    for word in words(alloc, all)? {
        let (name, mark) = parts(word);
        let limit = if mark == "1" { 1 } else { 2 };
        match name {
            "hourly" => setting.terms.hourly = limit,
            "concurrent" => setting.terms.concurrent = limit,
            "branches" => setting.terms.branches = limit,
            "closed" => setting.terms.heeds_closed = true,
            "page" => setting.page = true,
            "due" => setting.due = true,
            "later" => setting.revision = 1,
            _ => setting.terms.ticked.push(text(alloc, name)?)?,
        }
    }
    Ok(setting)
}

// A repository of one file, which was changed last at its revision.
fn repo(
    alloc: Global,
    setting: &Setting,
    branches: List<Branch>,
    requests: List<Request>,
) -> Result<Repo, AllocError> {
    let mut files = List::empty(alloc);
    files.push(FileAt {
        path: text(alloc, FILE)?,
        bytes: Bytes::new(Vec::from_slice(alloc, b"{ }")?),
        changed: setting.revision,
    })?;
    Ok(Repo {
        name: text(alloc, "acme/web")?,
        revision: setting.revision,
        files,
        branches,
        requests,
        page: if setting.page {
            Some(text(alloc, "old")?)
        } else {
            None
        },
        due: setting.due,
        deliveries: List::empty(alloc),
    })
}

fn is_among(name: &Text, items: &[Item]) -> bool
    ensures { result ≡ list_any (λ i. bytes_eq name.now i.branch) items.now }
{
    for item in items {
        if *name == item.branch {
            return true;
        }
    }
    false
}

fn are_distinct(items: &[Item]) -> bool
    ensures { result ≡ true → HaveBranches items.now }
{
    let mut rest = items;
    while let [item, later @ ..] = rest {
        if is_among(&item.branch, later) {
            return false;
        }
        rest = later;
    }
    true
}

fn line(alloc: Global, write: &Write) -> Result<String, AllocError> {
    match write {
        Write::SetBase { .. } => format!(in alloc; "base "),
        Write::PutBranch { branch, .. } => format!(in alloc; "put-{} ", branch.name.as_str()),
        Write::DropBranch { name, .. } => format!(in alloc; "drop-{} ", name.as_str()),
        Write::OpenRequest { number, branch, .. } => {
            format!(in alloc; "open-{}#{number} ", branch.as_str())
        }
        Write::EditRequest { number, .. } => format!(in alloc; "edit#{number} "),
        Write::Autoclose { number, .. } => format!(in alloc; "close#{number} "),
        Write::Finish { page, .. } => match page {
            Some(page) => format!(in alloc; "finish:{}", page.as_str()),
            None => format!(in alloc; "finish"),
        },
    }
}

// A page that says of each item its part, and the number of its request.
fn page(alloc: Global, shown: &[Shown]) -> Result<Text, AllocError> {
    let mut page = String::new(alloc);
    for item in shown {
        let part = match item.section {
            Section::Errored => "errored",
            Section::Live => "live",
            Section::Approval => "approval",
            Section::Schedule => "schedule",
            Section::Pending => "pending",
            Section::Limited => "limited",
            Section::Blocked => "blocked",
        };
        page.push_str(format!(in alloc; " {part}#{}", item.number)?.as_str())?;
    }
    Ok(Text::new(page))
}

// The writes of a run.
fn written(
    alloc: Global,
    setting: &Setting,
    repo: &Repo,
    items: &List<Item>,
) -> Result<String, Fail> {
    let few = greatest(repo.requests.as_slice()) as usize;
    if !are_distinct(items.as_slice()) || few > 1000 || items.len() > 1000 {
        return Err("no case")?;
    }
    let terms = &setting.terms;
    let branches = contents(alloc, terms, repo, items)?;
    if made_items(alloc, terms, repo, items)?.len() != branches.len() {
        return Err("not a branch for each item")?;
    }
    let work = work(alloc, terms, repo, items, &branches)?;
    let page = if setting.page {
        Some(page(alloc, work.shown.as_slice())?)
    } else {
        None
    };
    let mut line_of_all = String::new(alloc);
    for write in end(alloc, repo, work.writes, page)?.as_slice() {
        line_of_all.push_str(line(alloc, write)?.as_str())?;
    }
    Ok(line_of_all)
}

// Items; branches; requests; settings; and the writes.
const RUNS: &str = "a c b; ; ; due; put-a open-a#1 put-c open-c#2 put-b open-b#3 finish
a b; a; ; due; open-a#1 put-b open-b#2 finish
a b; a b; a b; ;
b; a b; a b; due later; close#1 drop-a put-b finish
a; a; a:t; ; edit#1
a b; a; a:x; closed; drop-a put-b open-b#2
a b; a; a:x; ; open-a#2 put-b open-b#3
a b; a; a:x a; closed; put-b open-b#3
a:! b; a b; a b; ; close#1 drop-a
a:! b; a; a; a; close#1 drop-a put-b open-b#2
a b:? c:- d:~; ; ; page due; put-a open-a#1 finish: live#1 approval#0 schedule#0 pending#0
a b:?-~ c:-~ d:!; ; ; page b; put-b open-b#1 put-a open-a#2 finish: live#2 live#1 schedule#0 errored#0
a:- b:-+ c:-; a b c; a:t b:t; ; edit#2 open-c#3
a b; a:* b; a b; ; put-a
a:= b c:<; a b c; a b c; later; put-b put-c
a b; a:@ b; a:@ b:@; ; edit#2
a; a:@; a:@; later; put-a edit#1
a; a:@; a:@; a; put-a edit#1
a b c; ; ; concurrent:1 page; put-a open-a#1 finish: live#1 limited#0 limited#0
a b c; b; b; concurrent:1 page; finish: limited#0 live#1 limited#0
a b c; b; b; branches:2; put-a open-a#2
a b c; b; b:h; concurrent:2 branches:1; ;
a b c; b; b; concurrent:1 c; put-c open-c#2
a b c; ; ; concurrent:1 b page; put-b open-b#1 finish: limited#0 live#1 limited#0
a b c; ; z:m; hourly:2; put-a open-a#2
a b c; ; z:x z:x; hourly:2; ;
a b c; ; z:h z:h; hourly:2; put-a open-a#3 put-b open-b#4
a b c; c; z:m; hourly:2; open-c#2
a b c; c:@; c:h@; hourly:1 c b; put-b open-b#2 put-c edit#1
a b; a; a:x; closed page; drop-a put-b open-b#2 finish: blocked#0 live#2
a b; a; a:x; closed page a; open-a#2 put-b open-b#3 finish: live#2 live#3";

// The writes of the run of a line, and those that are wanted.
fn run<'a>(alloc: Global, row: &'a str) -> Result<(String, &'a str), Fail> {
    let mut fields = row.split(';');
    let items = items(alloc, fields.next().unwrap_or(""))?;
    let branches = branches(alloc, fields.next().unwrap_or(""))?;
    let requests = requests(alloc, fields.next().unwrap_or(""))?;
    let setting = read_setting(alloc, fields.next().unwrap_or(""))?;
    let want = fields.next().unwrap_or("none").trim();
    let repo = repo(alloc, &setting, branches, requests)?;
    Ok((written(alloc, &setting, &repo, &items)?, want))
}

#[test]
fn writes_runs(rt: HostRuntime) -> Result<(), Fail> {
    for row in RUNS.split('\n') {
        let (found, want) = run(rt.alloc(), row)?;
        let found = found.as_str().trim();
        assert!(rt; found == want, "{row} gives {found}");
    }
    Ok(())
}
