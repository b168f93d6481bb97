ghost use Rattle.std.specs.Prelude.{◌≡◌};
ghost use Rattle.rnv_dashboard.specs.Page.{heading, word};

/// Where an item stands on a page, in the order of the page.
#[derive(Clone, Copy, Debug, PartialEq, Eq)]
pub enum Section {
    /// An edited file was not read back as it was to be.
    Errored,
    /// It has a live request.
    Live,
    /// It waits until someone ticks it.
    Approval,
    /// It waits for its schedule.
    Schedule,
    /// It waits until its releases are old enough.
    Pending,
    /// It waits for room under a limit.
    Limited,
    /// Its request was closed by someone.
    Blocked,
}

pub(crate) fn heading(section: Section) -> &'static str
    ensures { result.now ≡ heading section }
{
    match section {
        Section::Errored => "Errored",
        Section::Live => "Open",
        Section::Approval => "Pending Approval",
        Section::Schedule => "Awaiting Schedule",
        Section::Pending => "Pending Status Checks",
        Section::Limited => "Rate-Limited",
        Section::Blocked => "Ignored or Blocked",
    }
}

// The word in the markers of its boxes. An errored item has no box.
pub(crate) fn word(section: Section) -> &'static str
    ensures { result.now ≡ word section }
{
    match section {
        Section::Errored => "",
        Section::Live => "rebase",
        Section::Approval => "approve",
        Section::Schedule => "unschedule",
        Section::Pending => "unpend",
        Section::Limited => "unlimit",
        Section::Blocked => "recreate",
    }
}
