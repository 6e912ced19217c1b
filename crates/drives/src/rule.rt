// Which pieces are taken away.
ghost use Rattle.std.specs.Prelude.{◌≡◌};
ghost use Rattle.drives.specs.Rule.{names};

// A rule names versions.
#[derive(Clone, Copy, PartialEq, Eq, Debug)]
pub enum Rule {
    // all but one
    Except(u64),
    // all but two
    ExceptBoth(u64, u64),
    // all under one
    Under(u64),
}

impl Rule {
    // Whether the rule names a version.
    pub fn names_version(self, version: u64) -> bool
        ensures { result ≡ names self version }
    {
        match self {
            Rule::Except(v) => version != v,
            Rule::ExceptBoth(v, w) => version != v && version != w,
            Rule::Under(v) => version < v,
        }
    }
}
