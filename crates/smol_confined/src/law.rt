//! Laws of closed reflecting boxes. These functions do nothing: the laws are their contracts.
ghost use Rattle.std.specs.Prelude.{◌≡◌, ℕ, Ok};
ghost use Rattle.smol_geom.specs.declared.cuboid.Cuboid.{Cuboid};
ghost use Rattle.smol_types.specs.declared.draft.Draft.{Draft};
ghost use Rattle.smol_types.specs.declared.state.State.{State};
ghost use Rattle.smol_types.specs.Sound.{IsSound};
ghost use Rattle.smol_meaning.specs.Run.{run_of};
ghost use Rattle.smol_meaning.specs.Seen.{IsClosedBox};
ghost use Rattle.smol_meaning.specs.Stretch.{Stretch};
ghost use Rattle.smol_confined.specs.Laws.{EventsOfRunAreConfined, IsBoxedStep, LoneProductsAreConfined, MotionIsConfined, PairsAreConfined, RunIsConfined, StepIsConfined, StepKeepsAllIn};

/// No molecule leaves a closed reflecting box by its motion in a step.
pub fn motion_stays_inside()
    ensures { (draft : Draft) (seed : ℕ) (state : State) (box : Cuboid) → IsBoxedStep draft state box
        → MotionIsConfined draft seed state box }
{}

/// Each product that lives of a molecule that reacts alone inside a closed reflecting box is inside.
pub fn products_of_one_stay_inside()
    ensures { (draft : Draft) (seed : ℕ) (state : State) (box : Cuboid) → IsBoxedStep draft state box
        → LoneProductsAreConfined draft seed state box }
{}

/// A molecule that is inside a closed reflecting box before a step is inside it after the step, or gone.
pub fn a_step_keeps_inside()
    ensures { (draft : Draft) (seed : ℕ) (state : State) (box : Cuboid) → IsBoxedStep draft state box
        → StepIsConfined draft seed state box }
{}

/// A molecule that is inside a closed reflecting box in one state of a run is inside it in each later one, or gone.
pub fn a_run_keeps_inside()
    ensures { (draft : Draft) (seed : ℕ) (run : Stretch) (box : Cuboid) → IsSound draft → run_of draft seed ≡ Ok run → IsClosedBox draft box
        → RunIsConfined run box }
{}

/// Two molecules that react with each other are both inside a closed reflecting box or both outside, and where they are
/// inside, so is each of their products that lives.
pub fn pairs_are_on_one_side()
    ensures { (draft : Draft) (seed : ℕ) (state : State) (box : Cuboid) → IsBoxedStep draft state box
        → PairsAreConfined draft seed state box }
{}

/// Where all molecules are inside a closed reflecting box before a step, all are after it, those that are born among them.
pub fn a_step_keeps_all_inside()
    ensures { (draft : Draft) (seed : ℕ) (state : State) (box : Cuboid) → IsBoxedStep draft state box
        → StepKeepsAllIn draft seed state box }
{}

/// In no step from a state of a run does a product of what is inside a closed reflecting box leave it, or a molecule inside react
/// with one outside.
pub fn events_of_a_run_stay_inside()
    ensures { (draft : Draft) (seed : ℕ) (run : Stretch) (box : Cuboid) → IsSound draft → run_of draft seed ≡ Ok run → IsClosedBox draft box
        → EventsOfRunAreConfined draft seed run box }
{}
