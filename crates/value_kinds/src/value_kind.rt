// What a kind of values is.
ghost use Rattle.std.specs.Prelude.{◌≡◌};
ghost use Rattle.mig.specs.Networks.{Kind};

pub trait ValueKind: Copy {
    // the kind: the value of the constant 0, the complement and the majority
    ghost kind: { Kind Self };

    fn constant() -> Self
        ensures { result ≡ kind.constant };

    fn complement(self) -> Self
        ensures { result ≡ kind.complement self };

    fn majority(a: Self, b: Self, c: Self) -> Self
        ensures { result ≡ kind.majority a b c };

    ghost complement_twice: { (x : Self) → kind.complement (kind.complement x) ≡ x };

    ghost complement_all: { (x y z : Self) → kind.majority (kind.complement x) (kind.complement y) (kind.complement z) ≡ kind.complement (kind.majority x y z) };
}
