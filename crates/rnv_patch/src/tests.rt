ghost use Rattle.std.specs.Prelude.{IfOk};
ghost use Rattle.rnv_repo.specs.Base.{path_of};
ghost use Rattle.rnv_repo.specs.Named.{IsRisingBy};
ghost use Rattle.rnv_patch.specs.Patch.{branch_path};

use crate::patch_text;
use rnv_base::{Bytes, List, Text};
use rnv_repo::{EditedFile, FileAt};
use std::alloc::{AllocError, Global};
use std::convert::AsSlice;
use std::test::Fail;

// A text of a table, in which a `;` stands for a line feed.
fn unfolded(alloc: Global, text: &str) -> Result<Bytes, AllocError> {
    let mut bytes = Vec::new(alloc);
    for b in text.bytes() {
        bytes.push(if b == b';' { b'\n' } else { b })?;
    }
    Ok(Bytes::new(bytes))
}

// The base of one file.
fn only(alloc: Global, file: FileAt) -> Result<List<FileAt>, AllocError>
    ensures { IfOk result (λ base. IsRisingBy path_of base) }
{
    let mut base = List::empty(alloc);
    base.push(file)?;
    Ok(base)
}

// The base of no file.
fn empty(alloc: Global) -> List<FileAt>
    ensures { IsRisingBy path_of result }
{
    List::empty(alloc)
}

fn file_of(alloc: Global, path: &str, text: &str) -> Result<FileAt, AllocError> {
    Ok(FileAt {
        path: Text::copied(alloc, path)?,
        bytes: unfolded(alloc, text)?,
        changed: 1,
    })
}

// The base of a row: no file, where `-` stands for its text.
fn base_of(alloc: Global, path: &str, text: &str) -> Result<List<FileAt>, AllocError>
    ensures { IfOk result (λ base. IsRisingBy path_of base) }
{
    if text == "-" {
        return Ok(empty(alloc));
    }
    only(alloc, file_of(alloc, path, text)?)
}

// The branch of one file.
fn branch_of(alloc: Global, file: EditedFile) -> Result<List<EditedFile>, AllocError>
    ensures { IfOk result (λ files. IsRisingBy branch_path files) }
{
    let mut files = List::empty(alloc);
    files.push(file)?;
    Ok(files)
}

fn edited(alloc: Global, path: &str, text: &str) -> Result<EditedFile, AllocError> {
    Ok(EditedFile {
        path: Text::copied(alloc, path)?,
        bytes: unfolded(alloc, text)?,
    })
}

// Path, the base's text, the branch's text, and what `git diff --cached` prints of them (git 2.39.5), without its
// lines `index`.
#[test]
fn diffs_of_git(rt: HostRuntime) -> Result<(), Fail> {
    let alloc = rt.alloc();
    let table =
        "nine.txt|1;2;3;4;5;6;7;8;9;|1;2;3;4;X;6;7;8;9;|diff --git a/nine.txt b/nine.txt;--- a/nine.txt;+++ b/nine.txt;@@ -2,7 +2,7 @@; 2; 3; 4;-5;+X; 6; 7; 8;\n\
first.txt|1;2;3;4;5|X;2;3;4;5|diff --git a/first.txt b/first.txt;--- a/first.txt;+++ b/first.txt;@@ -1,4 +1,4 @@;-1;+X; 2; 3; 4;\n\
end.txt|1;2|1;2;|diff --git a/end.txt b/end.txt;--- a/end.txt;+++ b/end.txt;@@ -1,2 +1,2 @@; 1;-2;\\ No newline at end of file;+2;\n\
noend.txt|1;2;|1;2|diff --git a/noend.txt b/noend.txt;--- a/noend.txt;+++ b/noend.txt;@@ -1,2 +1,2 @@; 1;-2;+2;\\ No newline at end of file;\n\
longer.txt|1;2;3;4;|1;2;3;4;5;6;|diff --git a/longer.txt b/longer.txt;--- a/longer.txt;+++ b/longer.txt;@@ -2,3 +2,5 @@; 2; 3; 4;+5;+6;\n\
shorter.txt|1;2;3;4;5;6;|3;4;5;6;|diff --git a/shorter.txt b/shorter.txt;--- a/shorter.txt;+++ b/shorter.txt;@@ -1,5 +1,3 @@;-1;-2; 3; 4; 5;\n\
middle.txt|1;2;3;4;5;6;7;8;|1;2;3;4;P;Q;R;6;7;8;|diff --git a/middle.txt b/middle.txt;--- a/middle.txt;+++ b/middle.txt;@@ -2,7 +2,9 @@; 2; 3; 4;-5;+P;+Q;+R; 6; 7; 8;\n\
blank.txt|;;|;x;;|diff --git a/blank.txt b/blank.txt;--- a/blank.txt;+++ b/blank.txt;@@ -1,2 +1,3 @@; ;+x; ;\n\
emptied.txt|1;||diff --git a/emptied.txt b/emptied.txt;--- a/emptied.txt;+++ b/emptied.txt;@@ -1 +0,0 @@;-1;\n\
filled.txt||1;2;|diff --git a/filled.txt b/filled.txt;--- a/filled.txt;+++ b/filled.txt;@@ -0,0 +1,2 @@;+1;+2;\n\
same.txt|1;2;|1;2;|\n\
n/w.txt|-|x;y|diff --git a/n/w.txt b/n/w.txt;new file mode 100644;--- /dev/null;+++ b/n/w.txt;@@ -0,0 +1,2 @@;+x;+y;\\ No newline at end of file;\n\
one.txt|-|x;|diff --git a/one.txt b/one.txt;new file mode 100644;--- /dev/null;+++ b/one.txt;@@ -0,0 +1 @@;+x;\n\
none.txt|-||diff --git a/none.txt b/none.txt;new file mode 100644;\n\
a b.txt|1;|2;|diff --git a/a b.txt b/a b.txt;--- a/a b.txt\t;+++ b/a b.txt\t;@@ -1 +1 @@;-1;+2;\n\
n b.txt|-|2;|diff --git a/n b.txt b/n b.txt;new file mode 100644;--- /dev/null;+++ b/n b.txt\t;@@ -0,0 +1 @@;+2;\n\
q\"\\é.txt|1;|2;|diff --git \"a/q\\\"\\\\\\303\\251.txt\" \"b/q\\\"\\\\\\303\\251.txt\";--- \"a/q\\\"\\\\\\303\\251.txt\";+++ \"b/q\\\"\\\\\\303\\251.txt\";@@ -1 +1 @@;-1;+2;\n\
tab\tü\u{1}\u{7f}.txt|-|2;|diff --git \"a/tab\\t\\303\\274\\001\\177.txt\" \"b/tab\\t\\303\\274\\001\\177.txt\";new file mode 100644;--- /dev/null;+++ \"b/tab\\t\\303\\274\\001\\177.txt\";@@ -0,0 +1 @@;+2;";
    for row in table.lines() {
        let mut fields = row.split('|');
        let path = fields.next().ok_or("no path")?;
        let base = base_of(alloc, path, fields.next().ok_or("no base")?)?;
        let branch = branch_of(
            alloc,
            edited(alloc, path, fields.next().ok_or("no branch")?)?,
        )?;
        let wanted = unfolded(alloc, fields.next().ok_or("no patch")?)?;
        let patch = patch_text(alloc, &base, &branch)?;
        assert_eq!(rt; patch.as_slice(), wanted.as_slice(), "{path}");
    }
    Ok(())
}
