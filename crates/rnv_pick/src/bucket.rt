ghost use Rattle.std.specs.Prelude.{◌≡◌};
ghost use Rattle.rnv_pick.specs.Buckets.{buckets, is_in};

use crate::DepOptions;
use rnv_base::UpdateKind;

// Candidates from which one is chosen, by their kinds. `Rest` are those that are not major.
#[derive(Clone, Copy)]
pub(crate) enum Bucket {
    Patch,
    Minor,
    Major,
    Rest,
    All,
}

const ONE: [Bucket; 1] = [Bucket::All];

const TWO: [Bucket; 2] = [Bucket::Rest, Bucket::Major];

const THREE: [Bucket; 3] = [Bucket::Patch, Bucket::Minor, Bucket::Major];

impl Bucket {
    // Whether candidates of this kind are in it.
    pub(crate) fn holds(self, kind: UpdateKind) -> bool
        ensures { result ≡ is_in self kind }
    {
        match self {
            Bucket::Patch => matches!(kind, UpdateKind::Patch),
            Bucket::Minor => matches!(kind, UpdateKind::Minor),
            Bucket::Major => matches!(kind, UpdateKind::Major),
            Bucket::Rest => !matches!(kind, UpdateKind::Major),
            Bucket::All => true,
        }
    }
}

// The buckets of a dependency, from lesser kinds to greater ones.
pub(crate) fn buckets(options: &DepOptions) -> &'static [Bucket]
    ensures { result.now ≡ buckets options.now }
{
    if !options.split_major {
        &ONE
    } else if options.split_patch {
        &THREE
    } else {
        &TWO
    }
}
