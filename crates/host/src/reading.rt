//! What a report is read as.

ghost use Rattle.std.specs.Prelude.{◌≡◌, nat_eq};
ghost use Rattle.std.specs.Cmp.{partial_equiv_from_equiv};
ghost use Rattle.std.specs.Cmp.Lexicographic.{pointwise, nat_list_eq_equiv};

use std::marker::Model;

/// The usages that are on, rising, each once; the high half of a usage is its page.
#[derive(Clone, Debug, Drop)]
pub struct UsageList {
    usages: Vec<u32>,
}

impl Model for UsageList {
    ghost use Rattle.std.specs.Prelude.{ℕ, List};

    ghost Value = { List ℕ };

    ghost view = { λ u. u.usages.items };
}

impl UsageList {
    pub(crate) fn new(usages: Vec<u32>) -> UsageList
        ensures { result ≡ usages.items }
    {
        UsageList { usages }
    }

    /// Returns the usages.
    pub fn as_slice(&self) -> &[u32]
        ensures { result.now ≡ self.now }
    {
        &self.usages
    }
}

impl PartialEq for UsageList {
    ghost eq = { pointwise nat_eq };

    ghost laws = { partial_equiv_from_equiv nat_list_eq_equiv };

    fn eq(&self, other: &UsageList) -> bool {
        self.as_slice() == other.as_slice()
    }
}

impl Eq for UsageList {
    ghost laws = { nat_list_eq_equiv };
}

/// What a host reads in a report.
#[derive(Clone, Debug, PartialEq, Eq, Drop)]
pub enum Reading {
    /// There is no descriptor to read it by, or the report is not one that the descriptor declares.
    Unread,
    /// A growth was refused.
    NoMemory,
    /// The usages that are on.
    Usages(UsageList),
}
