use crate::{MemSpawner, SteadySpawner, TaskAnswer, TaskCall, TaskEnd, TaskError, Tasked, tasked};
use rnv_base::{Bytes, List, Text};
use rnv_repo::EditedFile;
use std::alloc::{AllocError, Global};
use std::convert::{AsSlice, AsStr};
use std::test::Fail;

// The texts of a list with a `;` behind each.
fn texts(alloc: Global, list: &str) -> Result<List<Text>, AllocError> {
    let mut texts = List::empty(alloc);
    for text in list.split_terminator(';') {
        texts.push(Text::copied(alloc, text)?)?;
    }
    Ok(texts)
}

fn bytes(alloc: Global, text: &str) -> Result<Bytes, AllocError> {
    Ok(Bytes::new(Vec::from_slice(alloc, text.as_bytes())?))
}

// Files with a `;` behind each: path and bytes.
fn files(alloc: Global, list: &str) -> Result<List<EditedFile>, Fail> {
    let mut files = List::empty(alloc);
    for file in list.split_terminator(';') {
        let (path, text) = file.split_once(':').ok_or("no bytes")?;
        files.push(EditedFile {
            path: Text::copied(alloc, path)?,
            bytes: bytes(alloc, text)?,
        })?;
    }
    Ok(files)
}

// Answers with a `;` behind each: words, input, status, output.
fn answers(alloc: Global, list: &str) -> Result<List<TaskAnswer>, Fail> {
    let mut answers = List::empty(alloc);
    for answer in list.split_terminator(';') {
        let mut fields = answer.split(':');
        let mut words = List::empty(alloc);
        for word in fields.next().ok_or("no words")?.split(' ') {
            words.push(Text::copied(alloc, word)?)?;
        }
        let input = bytes(alloc, fields.next().ok_or("no input")?)?;
        let status = fields
            .next()
            .ok_or("no status")?
            .parse()
            .map_err(|_| "no status")?;
        let output = bytes(alloc, fields.next().ok_or("no output")?)?;
        answers.push(TaskAnswer {
            call: TaskCall { words, input },
            end: TaskEnd { status, output },
        })?;
    }
    Ok(answers)
}

// Files as they stand in a table.
fn shown_files(alloc: Global, files: &[EditedFile]) -> Result<String, Fail> {
    let mut shown = String::new(alloc);
    for file in files {
        shown.push_str(file.path.as_str())?;
        shown.push_str(":")?;
        shown.push_str(std::str::from_utf8(file.bytes.as_slice()).map_err(|_| "no text")?)?;
        shown.push_str(";")?;
    }
    Ok(shown)
}

// Calls as they stand in a table: words and input.
fn shown_calls(alloc: Global, calls: &[TaskCall]) -> Result<String, Fail> {
    let mut shown = String::new(alloc);
    for call in calls {
        for word in call.words.as_slice() {
            shown.push_str(word.as_str())?;
            shown.push_str(" ")?;
        }
        shown.push_str(":")?;
        shown.push_str(std::str::from_utf8(call.input.as_slice()).map_err(|_| "no text")?)?;
        shown.push_str(";")?;
    }
    Ok(shown)
}

// What is behind tasks: the files, the problem and the calls, with a `|` between them.
fn shown(alloc: Global, done: &Tasked, calls: &[TaskCall]) -> Result<String, Fail> {
    let files = shown_files(alloc, done.files.as_slice())?;
    let calls = shown_calls(alloc, calls)?;
    let problem = done.problem.as_str();
    Ok(format!(in alloc; "{files}|{problem}|{calls}")?)
}

// Runs the tasks of a row: the operator's list, the commands, what programs give, and the files, with a
// `|` between them.
fn run_row(alloc: Global, row: &str) -> Result<String, Fail> {
    let (allowed, row) = row.split_once('|').ok_or("no commands")?;
    let (commands, row) = row.split_once('|').ok_or("no answers")?;
    let (given, edited) = row.split_once('|').ok_or("no files")?;
    let allowed = texts(alloc, allowed)?;
    let commands = texts(alloc, commands)?;
    let mut spawner = SteadySpawner::new(alloc, answers(alloc, given)?);
    let edited = files(alloc, edited)?;
    let done = tasked(alloc, &mut spawner, &allowed, &commands, &edited).map_err(|_| "fault")?;
    shown(alloc, &done, spawner.calls())
}

// Rows with an empty line between them, and behind `=>` the files, the problem and the calls.
const ROWS: &str = "\
sort;|sort;|sort:b=1.1.0\na=2.0.0\n:0:a=2.0.0\nb=1.1.0\n;|versions.txt:b=1.1.0\na=2.0.0\n;\
=>versions.txt:a=2.0.0\nb=1.1.0\n;||sort :b=1.1.0\na=2.0.0\n;\n\n\
sort;|sort;|sort:b=1.1.0\na=2.0.0\n:1:a=2.0.0\nb=1.1.0\n;|versions.txt:b=1.1.0\na=2.0.0\n;\
=>versions.txt:b=1.1.0\na=2.0.0\n;|versions.txt: sort ended with 1|sort :b=1.1.0\na=2.0.0\n;\n\n\
sort;|sort;||a:b;=>a:b;|a: sort ended with 255|sort :b;\n\n\
sort;|sort;|sort:b:0:;|a:b;=>a:;||sort :b;\n\n\
up;down;|up;down;|up:1:0:2;down:2:0:3;|a:1;=>a:3;||up :1;down :2;\n\n\
up;|up;down;|up:1:0:2;down:2:0:3;|a:1;=>a:1;|a: down is not allowed|up :1;\n\n\
sort -r;sort  -r ;|sort  -r ;sort -r;|sort -r:1:0:2;sort -r:2:0:1;|a:1;=>a:1;||sort -r :1;sort -r :2;\n\n\
sort;|sort -r;||a:1;=>a:1;|a: sort -r is not allowed|\n\n\
 ;;| ;||a:1;=>a:1;|a:   is not allowed|\n\n\
up;|up;|up:1:0:2;up:2:3:;|a:1;b:2;c:1;d:4;\
=>a:2;b:2;c:2;d:4;|b: up ended with 3; d: up ended with 255|up :1;up :2;up :1;up :4;";

#[test]
fn runs_tasks(rt: HostRuntime) -> Result<(), Fail> {
    for row in ROWS.split("\n\n") {
        let (given, want) = row.split_once("=>").ok_or("no end")?;
        let done = run_row(rt.alloc(), given)?;
        assert_eq!(rt; done.as_str(), want, "{given}");
    }
    Ok(())
}

// As many bytes.
fn many(alloc: Global, count: usize) -> Result<Bytes, AllocError> {
    Ok(Bytes::new(vec![in alloc; b'a'; count]?))
}

// What commands make of a file of so many bytes, where `up` gives as many others for it.
fn limited(alloc: Global, commands: &str, size: usize, output: usize) -> Result<Tasked, Fail> {
    let mut given = List::empty(alloc);
    given.push(TaskAnswer {
        call: TaskCall {
            words: texts(alloc, "up;")?,
            input: many(alloc, size)?,
        },
        end: TaskEnd {
            status: 0,
            output: many(alloc, output)?,
        },
    })?;
    let mut spawner = SteadySpawner::new(alloc, given);
    let mut files = List::empty(alloc);
    files.push(EditedFile {
        path: Text::copied(alloc, "a")?,
        bytes: many(alloc, size)?,
    })?;
    let allowed = texts(alloc, "up;")?;
    let commands = texts(alloc, commands)?;
    let done = tasked(alloc, &mut spawner, &allowed, &commands, &files).map_err(|_| "fault")?;
    Ok(done)
}

// Of commands, a file and an output at their limits and above: the bytes of the file in the end, and the
// problem.
#[test]
fn keeps_limits(rt: HostRuntime) -> Result<(), Fail> {
    for (commands, size, output, want, problem) in [
        ("up;", 32_768, 1_048_576, 1_048_576, ""),
        ("up;", 32_769, 1, 32_769, "a: too large for tasks"),
        ("up;", 1, 1_048_577, 1, "a: up gave too much"),
        ("", 32_769, 1, 32_769, ""),
    ] {
        let done = limited(rt.alloc(), commands, size, output)?;
        for file in done.files.as_slice() {
            assert_eq!(rt; file.bytes.as_slice().len(), want);
        }
        assert_eq!(rt; done.problem.as_str(), problem);
    }
    Ok(())
}

// A spawner whose second call fails: the tasks of the second branch come to no end.
#[test]
fn answers_faults(rt: HostRuntime) -> Result<(), Fail> {
    let alloc = rt.alloc();
    let failing = List::new(Vec::from_array(alloc, [1])?);
    let mut spawner = MemSpawner::new(alloc, answers(alloc, "up:1:0:2;")?, failing);
    let up = texts(alloc, "up;")?;
    let files = files(alloc, "a:1;")?;
    let done = tasked(alloc, &mut spawner, &up, &up, &files).map_err(|_| "fault")?;
    assert_eq!(rt; shown_files(alloc, done.files.as_slice())?.as_str(), "a:2;");
    match tasked(alloc, &mut spawner, &up, &up, &files) {
        Err(error) => assert_eq!(rt; error, TaskError::TaskFault),
        Ok(_) => panic!(rt; "no fault"),
    }
    assert_eq!(rt;
        shown_calls(alloc, spawner.calls())?.as_str(),
        "up :1;up :1;"
    );
    Ok(())
}
