use crate::CargoManager;
use rnv_base::{List, SourceKind, Text};
use rnv_manager::{Edit, ExtractError, Found, Manager, all_fit, are_indexes, edit_kept};
use std::alloc::{AllocError, Global};
use std::convert::{AsSlice, AsStr};
use std::test::Fail;

// Each line is a file and its finds, each as `PLACE NAME PACKAGE START VALUE;`, or `bad` where the file is outside
// the grammar. In a file `¶` is a line feed, `§` a carriage return, `→` a tab and `␡` U+007F.
const CASES: &str =
    r#"[dependencies]¶# serde = "0.1.0"¶serde_x = { package = "serde", version = "1.0.100" } # "1.0.100"¶[package.metadata]¶note = """¶[dependencies]¶serde = "1.0.100"¶""" => dependencies serde_x serde 75 1.0.100;
dependencies.a = '1'¶[dependencies.b]§¶version = "2" # c§¶package = 'bb'§¶package = 'late' => dependencies a a 18 1;dependencies b bb 50 2;
[target.'cfg(unix)'.dev-dependencies]¶c = "3"¶[target.x.build-dependencies]¶d.version = '4' => dev-dependencies c c 43 3;build-dependencies d d 89 4;
[workspace]¶dependencies = {¶  d = "4", # one¶  e = { version = '5', },¶} => workspace.dependencies d d 36 4;workspace.dependencies e e 65 5;
[ build-dependencies ]¶→"f" . version→=→"6" => build-dependencies f f 41 6;
[target.a.dependencies.x]¶package = 'one'¶version = '1'¶[target.b.dependencies]¶x = { version = '2', package = 'two' }¶[dependencies]¶x = '3' => dependencies x one 53 1;dependencies x two 97 2;dependencies x x 139 3;
[target.''.dependencies.x]¶package = 'one'¶[dependencies]¶x = '1' => dependencies x x 63 1;
[[dependencies]]¶g = "7"¶[dependencies]¶h = ["8", { version = "9" }, [ # two¶'x' , ] ]¶i = '''10'''¶j = 1979-05-27 07:32:00¶k.workspace = true¶l = "" => dependencies l l 148 ;
[dependencies]¶a.b.version = '1' => none
[a.dependencies]¶b = '1' => none
[[x]]¶[dependencies]¶a = '1'¶a = '2' => dependencies a a 26 1;dependencies a a 34 2;
[dependencies]¶a = "1\"2"¶b = '1\2'¶c = "␡"¶d = "é" => dependencies d d 49 é;
[dependencies.a]¶package = 'a\'¶version = '1' => none
[dependencies]¶"é" = '1' => dependencies é é 23 1;
 => none
¶ →§¶# é ␡ => none
# a§¶ => none
a = """x""""" => none
a = '''§¶'' \''' => none
a = """\"""" => none
a = 1 2 => none
a = +1_0.5:z => none
[ a . "b" . 'c' ] # d => none
"é" = 1 => none
 [a] => none
a = [1,2,]  => none
a = { # x§¶ b.c = 1 ,¶} => none
[dependencies]¶a = "1\¶" => bad
[dependencies]¶a = "1¶" => bad
a = '1§' => bad
a = 1 # b§c => bad
a = 1§ => bad
a = """x"""""" => bad
a = """\""" => bad
a = """x§""" => bad
a = 1 x => bad
a = 1  2 => bad
a = => bad
[a => bad
[a]] => bad
[[a] ] => bad
[a.] => bad
[] => bad
[a] b = 1 => bad
a = 1 b = 2 => bad
a => bad
é = 1 => bad
a = [ , ] => bad
a = [1,,2] => bad
a = { b = 1 c = 2 } => bad
a = { b¶ = 1 } => bad
a = [1¶2] => bad
a = [1 } => bad"#;

// The text of a file in a line of cases.
fn file_of(alloc: Global, line: &str) -> Result<String, AllocError> {
    let line = line.replace(alloc, "¶", "\n")?;
    let line = line.as_str().replace(alloc, "§", "\r")?;
    let line = line.as_str().replace(alloc, "→", "\t")?;
    line.as_str().replace(alloc, "␡", "\u{7f}")
}

// The finds as a line of cases has them.
fn shown(alloc: Global, found: &[Found]) -> Result<String, AllocError> {
    if found.is_empty() {
        return String::from_str(alloc, "none");
    }
    let mut line = String::new(alloc);
    for find in found {
        let Found {
            name,
            package,
            place,
            value,
            start,
            source: _,
        } = *find;
        let one = format!(in alloc; "{place} {name} {package} {start} {value};")?;
        line.push_str(one.as_str())?;
    }
    Ok(line)
}

// What a file gives, as a line of cases has it.
fn extracted(alloc: Global, file: &str) -> Result<String, AllocError> {
    match CargoManager.extract(alloc, file) {
        Ok(found) => shown(alloc, found.as_slice()),
        Err(ExtractError::BadSyntax) => String::from_str(alloc, "bad"),
        Err(ExtractError::Memory) => Err(AllocError),
    }
}

#[test]
fn finds_in_files(rt: HostRuntime) -> Result<(), Fail> {
    for line in CASES.lines() {
        let (file, wanted) = line.split_once(" => ").ok_or("a case")?;
        let file = file_of(rt.alloc(), file)?;
        let found = extracted(rt.alloc(), file.as_str())?;
        assert_eq!(rt; found.as_str(), wanted, "{line}");
    }
    Ok(())
}

const ROW: &str =
    "[dependencies]\n# serde = \"0.1.0\"\nserde_x = { package = \"serde\", version = \"1.0.100\" } # \"1.0.100\"\n";

const EDITED: &str =
    "[dependencies]\n# serde = \"0.1.0\"\nserde_x = { package = \"serde\", version = \"1.0.200\" } # \"1.0.100\"\n";

#[test]
fn an_edit(rt: HostRuntime) -> Result<(), Fail> {
    let alloc = rt.alloc();
    let mut edits = List::empty(alloc);
    edits.push(Edit {
        index: 0,
        new_value: Text::copied(alloc, "1.0.200")?,
    })?;
    match CargoManager.extract(alloc, ROW) {
        Ok(found)
            if are_indexes(edits.as_slice(), found.len())
                && all_fit(&CargoManager, edits.as_slice()) => {
            for find in found.as_slice() {
                assert!(rt; find.source == SourceKind::Crates);
            }
            match edit_kept(alloc, &CargoManager, ROW, &edits) {
                Ok(file) => assert_eq!(rt; file.as_slice(), EDITED.as_bytes()),
                Err(_) => return Err(Fail::from("not edited")),
            }
        }
        _ => return Err(Fail::from("no finds")),
    }
    Ok(())
}

// So many arrays, each in the one before.
fn nested(alloc: Global, depth: usize) -> Result<String, AllocError> {
    let mut file = String::from_str(alloc, "a = ")?;
    for _ in 0..depth {
        file.push_str("[")?;
    }
    for _ in 0..depth {
        file.push_str("]")?;
    }
    Ok(file)
}

#[test]
fn nesting(rt: HostRuntime) -> Result<(), Fail> {
    let file = nested(rt.alloc(), 127)?;
    assert!(rt; CargoManager.extract(rt.alloc(), file.as_str()).is_ok());
    let file = nested(rt.alloc(), 128)?;
    assert!(rt;
        matches!(
            CargoManager.extract(rt.alloc(), file.as_str()),
            Err(ExtractError::BadSyntax)
        )
    );
    Ok(())
}
