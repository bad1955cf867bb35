// The types of number that positions are worked in: whole micrometres in i32, and f32. Code over both is written once, for a `Number`.
ghost use Rattle.std.specs.Prelude.{◌≡◌};
ghost use Rattle.rules.specs.Position.{NumbersOn, whole_on, single_on};

pub trait Number: Copy {
    // The rules in this type of number.
    ghost on: { NumbersOn Self };

    // What clears a coordinate.
    fn nought() -> Self
        ensures { result ≡ on.nought };

    // Check 4, of one coordinate.
    fn allowed(self) -> bool
        ensures { result ≡ on.allowed self };
}

impl Number for i32 {
    ghost on = { whole_on };

    fn nought() -> i32 {
        0
    }

    fn allowed(self) -> bool {
        whole::in_range(self)
    }
}

impl Number for f32 {
    ghost on = { single_on };

    // +0, by its bits.
    fn nought() -> f32 {
        0.0
    }

    // Size at most 2^40: a NaN compares with nothing.
    fn allowed(self) -> bool {
        self <= 1099511627776.0 && -1099511627776.0 <= self
    }
}
