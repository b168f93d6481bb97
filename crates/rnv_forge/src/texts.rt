ghost use Rattle.std.specs.List.{AllByRecursion};
ghost use Rattle.std.specs.Str.{IsUtf8};
ghost use Rattle.rnv_repo.specs.WellFormed.{HasBranchTexts, HasKeyTexts, HasRequestTexts, HasTexts};

use rnv_base::{List, Text};
use rnv_repo::{Branch, EditedFile, FileChange, Key, Write};
use std::convert::{AsSlice, AsStr};

// What has texts, which are UTF-8 as every text is. Its function does nothing.
trait Utf8 {
    ghost is_utf8: { Self → Type 0 };

    fn shows(&self)
        ensures { is_utf8 self.now };
}

impl Utf8 for Text {
    ghost is_utf8 = { IsUtf8 };

    fn shows(&self) {
        let _ = self.as_str();
    }
}

impl Utf8 for Key {
    ghost is_utf8 = { HasKeyTexts };

    fn shows(&self) {
        self.file.shows();
        self.package.shows();
        self.new_value.shows();
    }
}

impl Utf8 for EditedFile {
    ghost is_utf8 = { λ file. IsUtf8 file.path };

    fn shows(&self) {
        self.path.shows();
    }
}

impl Utf8 for FileChange {
    ghost is_utf8 = { λ change. IsUtf8 change.path };

    fn shows(&self) {
        self.path.shows();
    }
}

impl<T: Utf8> Utf8 for List<T> {
    ghost is_utf8 = { AllByRecursion T.is_utf8 };

    fn shows(&self) {
        for item in self.as_slice() {
            item.shows();
        }
    }
}

impl Utf8 for Branch {
    ghost is_utf8 = { HasBranchTexts };

    fn shows(&self) {
        self.name.shows();
        self.updates.shows();
        self.files.shows();
        self.problem.shows();
    }
}

fn request_texts(updates: &List<Key>, title: &Text, body: &Text, labels: &List<Text>)
    ensures { HasRequestTexts updates.now title.now body.now labels.now }
{
    updates.shows();
    title.shows();
    body.shows();
    labels.shows();
}

// The texts of a write are UTF-8.
pub(crate) fn has_texts(write: &Write)
    ensures { HasTexts write.now }
{
    match write {
        Write::SetBase { repo, changes } => {
            repo.shows();
            changes.shows();
        }
        Write::PutBranch { repo, branch } => {
            repo.shows();
            branch.shows();
        }
        Write::DropBranch { repo, name } => {
            repo.shows();
            name.shows();
        }
        Write::OpenRequest {
            repo,
            branch,
            updates,
            title,
            body,
            labels,
            ..
        } => {
            repo.shows();
            branch.shows();
            request_texts(updates, title, body, labels);
        }
        Write::EditRequest {
            repo,
            updates,
            title,
            body,
            labels,
            ..
        } => {
            repo.shows();
            request_texts(updates, title, body, labels);
        }
        Write::Autoclose { repo, .. } => repo.shows(),
        Write::Finish { repo, page } => {
            repo.shows();
            if let Some(page) = page {
                page.shows();
            }
        }
    }
}
