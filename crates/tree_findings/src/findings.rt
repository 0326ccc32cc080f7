//! What is found of a tree, in four classes.
ghost use Rattle.std.specs.Prelude.{◌≡◌};
ghost use Rattle.tree_findings.specs.Classes.{both, rule, limit, new_name};

/// Whether a tree keeps what is asked of it, by class.
#[derive(Clone, Copy)]
pub struct Findings {
    /// The rules of well-formed units that stand in no other class.
    pub rules: bool,
    /// Each name that is used is in scope.
    pub scope: bool,
    /// Each binder has a name that is not in scope where it stands.
    pub names: bool,
    /// The limits of literals, ranks, expressions, paths, statements and ids.
    pub limits: bool,
}

impl Findings {
    /// All is kept.
    pub const FINE: Findings = Findings {
        rules: true,
        scope: true,
        names: true,
        limits: true,
    };

    /// What both keep.
    pub fn and(self, other: Findings) -> Findings
        ensures { result ≡ both self other }
    {
        Findings {
            rules: self.rules && other.rules,
            scope: self.scope && other.scope,
            names: self.names && other.names,
            limits: self.limits && other.limits,
        }
    }

    /// Whether a rule is kept.
    pub(crate) fn rule(kept: bool) -> Findings
        ensures { result ≡ rule kept }
    {
        Findings {
            rules: kept,
            ..Findings::FINE
        }
    }

    /// Whether a limit is kept.
    pub(crate) fn limit(kept: bool) -> Findings
        ensures { result ≡ limit kept }
    {
        Findings {
            limits: kept,
            ..Findings::FINE
        }
    }

    /// Whether the name of a binder is new.
    pub(crate) fn new_name(is_new: bool) -> Findings
        ensures { result ≡ new_name is_new }
    {
        Findings {
            names: is_new,
            ..Findings::FINE
        }
    }
}
