//! Which rule is broken first, and at which token.
ghost use Rattle.std.specs.Prelude.{◌≡◌, Bool, true, false, ◌++◌, [], List};
ghost use Rattle.rules_names.specs.Faults.{rank_of, is_before, earlier, hides, fault, unless, charged, parts_then_whole};
ghost use Rattle.rules_names.specs.declared.fault.Fault.{Fault};

use crate::error::TypeKind;

/// A rule that is broken, and the number of the token at which it is.
#[derive(Clone, Copy)]
pub struct Fault {
    pub token: usize,
    pub rule: TypeKind,
}

/// The first rule that something breaks, and whether one that it breaks hides the rules of what it is a part of.
#[derive(Clone, Copy)]
pub struct Charge {
    pub first: Option<Fault>,
    pub hides: bool,
}

impl TypeKind {
    /// Where the rule stands in the list: of two that are broken at one token, the earlier one is named.
    pub fn rank(self) -> u8
        ensures { result ≡ rank_of self }
    {
        match self {
            TypeKind::UnknownName => 0,
            TypeKind::Redefined => 1,
            TypeKind::KindMismatch => 2,
            TypeKind::RankMismatch => 3,
            TypeKind::NotAffine => 4,
            TypeKind::ConfigPlace => 5,
            TypeKind::StridePlace => 6,
            TypeKind::SharedArgument => 7,
            TypeKind::Memory => 8,
        }
    }

    /// Whether what such a part makes up is charged with no further rule.
    pub fn hides(self) -> bool
        ensures { result ≡ hides self }
    {
        match self {
            TypeKind::UnknownName | TypeKind::KindMismatch => true,
            _ => false,
        }
    }
}

impl Fault {
    /// Whether this fault is named rather than the other.
    pub fn is_before(self, other: Fault) -> bool
        ensures { result ≡ is_before self other }
    {
        self.token < other.token
            || (self.token == other.token && self.rule.rank() < other.rule.rank())
    }
}

/// The earlier of two faults.
pub fn earlier(a: Option<Fault>, b: Option<Fault>) -> Option<Fault>
    ensures { result ≡ earlier a b }
{
    match (a, b) {
        (Some(first), Some(second)) if second.is_before(first) => b,
        (None, _) => b,
        _ => a,
    }
}

impl Charge {
    /// No rule is broken.
    pub fn none() -> Charge
        ensures { result ≡ charged [] }
    {
        Charge {
            first: None,
            hides: false,
        }
    }

    /// The rule is broken at a token.
    pub fn of(rule: TypeKind, token: usize) -> Charge
        ensures { result ≡ charged (fault rule token) }
    {
        Charge {
            first: Some(Fault { token, rule }),
            hides: rule.hides(),
        }
    }

    /// The rule is broken at a token unless the test holds.
    pub fn unless(holds: bool, rule: TypeKind, token: usize) -> Charge
        ensures { result ≡ charged (unless holds rule token) }
    {
        if holds {
            Charge::none()
        } else {
            Charge::of(rule, token)
        }
    }

    /// What both break.
    pub fn and(self, other: Charge) -> Charge
        ensures { (a b : List Fault) → self ≡ charged a → other ≡ charged b → result ≡ charged (a ++ b) }
    {
        Charge {
            first: earlier(self.first, other.first),
            hides: self.hides || other.hides,
        }
    }

    /// What parts break, and the whole where no part hides its rules.
    pub fn then_whole(self, whole: Charge) -> Charge
        ensures { (a b : List Fault) → self ≡ charged a → whole ≡ charged b → result ≡ charged (parts_then_whole a b) }
    {
        if self.hides { self } else { self.and(whole) }
    }
}
