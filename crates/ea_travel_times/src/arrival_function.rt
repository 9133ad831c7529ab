ghost use Rattle.std.specs.Prelude.{ℕ};

/// A function from class, weight and departure to the arrival. Every closure of that signature is one.
pub trait ArrivalFunction {
    /// Which questions may be asked.
    ghost may: { Self → ℕ → ℕ → ℕ → Type 0 };

    /// Which arrivals may be answered.
    ghost answers: { Self → ℕ → ℕ → ℕ → ℕ → Type 0 };

    /// The arrival for a class, a weight and a departure.
    fn arrival(&self, class: u32, weight: u64, departure: u64) -> u64
        requires { may self.now class weight departure }
        ensures { answers self.now class weight departure result };
}

impl<F: Fn(u32, u64, u64) -> u64> ArrivalFunction for F {
    ghost may = { λ f class weight departure. F.pre f class weight departure };

    ghost answers = { λ f class weight departure arrival. F.post f class weight departure arrival };

    fn arrival(&self, class: u32, weight: u64, departure: u64) -> u64 {
        self(class, weight, departure)
    }
}
