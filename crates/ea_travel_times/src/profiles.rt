ghost use Rattle.std.specs.Prelude.{◌≡◌, ◌≤◌};
ghost use Rattle.ea_travel_times.specs.Answers.{IsFifoFunction, IsQuestion};

use crate::arrival_function::ArrivalFunction;
use crate::travel_times::TravelTimes;

/// A caller's closure, the greatest class that it answers for, and the fact that it is first in, first out.
#[derive(Drop)]
pub struct Profiles<F: ArrivalFunction> {
    pub closure: F,
    pub classes: u32,
    pub ghost fifo: { ∥ IsFifoFunction (F.may closure) (F.answers closure) classes ∥₁ },
}

impl<F: ArrivalFunction> Profiles<F> {
    /// Travel times by a closure, for classes from 0 to the greatest.
    pub fn new(closure: F, classes: u32) -> Profiles<F>
        requires { IsFifoFunction (F.may closure) (F.answers closure) classes }
        ensures closure { result.closure ≡ closure }
        ensures classes { result.classes ≡ classes }
    {
        Profiles { closure, classes }
    }

    /// The greatest class.
    pub fn classes(&self) -> u32
        ensures { result ≡ self.now.classes }
    {
        self.classes
    }

    /// The fact of the closure, for proofs. It does nothing when it runs.
    pub fn fifo(&self)
        ensures { IsFifoFunction (F.may self.now.closure) (F.answers self.now.closure)
            self.now.classes }
    {}

    /// When an arc of a class and a weight arrives that is left at a departure.
    pub fn arrive(&self, class: u32, weight: u64, departure: u64) -> u64
        requires { IsQuestion self.now.classes class weight departure }
        ensures answer { F.answers self.now.closure class weight departure result }
        ensures not_before { departure ≤ result }
    {
        self.fifo();
        self.closure.arrival(class, weight, departure)
    }
}

impl<F: ArrivalFunction> TravelTimes for Profiles<F> {
    ghost use Rattle.ea_travel_times.specs.Truncated.{truncated_is_fifo};

    ghost classes = { λ profiles. profiles.classes };

    ghost answers = { λ profiles class weight departure arrival.
        ∥ F.answers profiles.closure class weight departure arrival ∥₁ };

    fn arrive(&self, class: u32, weight: u64, departure: u64) -> u64 {
        Profiles::arrive(self, class, weight, departure)
    }

    ghost fifo = { λ profiles.
        truncated_is_fifo (F.may profiles.closure) (F.answers profiles.closure)
        profiles.classes profiles.fifo };
}
