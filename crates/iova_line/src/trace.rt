//! What a trace says: its domain and its steps.
ghost use Rattle.std.specs.Prelude.{◌≡◌, ◌≢◌, ◌<◌, Some, IsNone, IfSome};
ghost use Rattle.iova_model.specs.declared.step.Step.{Step};
ghost use Rattle.iova_line.specs.Text.{step_text};
ghost use Rattle.iova_line.specs.LineSteps.{IsStep};

use crate::line::read_step;
use iova_model::step::Step;
use iova_range::bounds::Bounds;
use iova_range::limits::MAX_STEPS;
use std::marker::Model;

/// What a trace says: the domain of its header, and its steps.
#[derive(Drop)]
pub struct Trace {
    /// The bounds and the profile.
    pub bounds: Bounds,
    /// How many workers, 1 to 16.
    pub workers: u64,
    /// The steps, at most 1,000,000.
    pub steps: Steps,
}

/// Steps in order.
#[derive(Drop)]
pub struct Steps {
    items: Vec<Step>,
}

impl Model for Steps {
    ghost use Rattle.std.specs.Prelude.{List};
    ghost use Rattle.iova_model.specs.declared.step.Step.{Step as S};

    ghost Value = { List S };

    ghost view = { λ s. s.items.items };
}

impl Steps {
    pub fn new(items: Vec<Step>) -> Steps
        ensures { result ≡ items.items }
    {
        Steps { items }
    }

    /// The steps, the first one first.
    pub fn as_slice(&self) -> &[Step]
        ensures { result.now ≡ self.now }
    {
        self.items.as_slice()
    }
}

/// The step that this line, which is without its LF, says after so many steps. None exactly where
/// the line may not stand there.
pub fn next_step(line: &[u8], steps: u64) -> Option<Step>
    ensures room { IfSome result (λ _. steps < MAX_STEPS) }
    ensures spelled { IfSome result (λ s. IsStep s × (line.now ≡ step_text s)) }
    ensures read { (s : Step) → steps < MAX_STEPS → IsStep s → line.now ≡ step_text s
        → result ≡ Some s }
    ensures all { IsNone result → (s : Step) → steps < MAX_STEPS → IsStep s
        → line.now ≢ step_text s }
{
    if steps >= MAX_STEPS {
        return None;
    }
    read_step(line)
}
