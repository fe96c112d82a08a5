//! Laws of combined steps: the steps of a process on registers, together with its next other step.

ghost use Rattle.pv_laws_classes.specs.Together.{RegisterStepsAreSilent, SchedulesHaveNormalForms, CombinedStepsAreOfRegisters, CombinedStepsAreSteps, CombinedStepsReachEach, SchedulesHaveCombinedForms, CombinedStepsReachEndings, LeastLengthsAreEqual, TextsHaveLeastLengths};

/// A step has no lines if and only if it is an instruction on registers.
pub fn register_steps_are_silent()
    ensures { RegisterStepsAreSilent }
{}

/// Every schedule of live processes has a normal form of the same length with the same final state: the steps on
/// registers of each process are directly before its next other step, or at the end if none follows. The other steps
/// have the same outcomes and the same lines, in the same order.
pub fn schedules_have_normal_forms()
    ensures { SchedulesHaveNormalForms }
{}

/// A combined step of a process is its steps on registers, at most `most`, and one more step.
pub fn combined_steps_are_of_registers()
    ensures { CombinedStepsAreOfRegisters }
{}

/// A schedule of combined steps of live processes is a schedule of live processes, with the same final state.
pub fn combined_steps_are_steps()
    ensures { CombinedStepsAreSteps }
{}

/// Each step of a schedule that is not on registers is the last step of a schedule of combined steps that is no longer.
pub fn combined_steps_reach_each()
    ensures { CombinedStepsReachEach }
{}

/// Every schedule of live processes is one of combined steps, and of steps on registers at the end, in another order: its
/// steps that are not on registers have the same outcomes and lines in the same order, and the final state is the same.
pub fn schedules_have_combined_forms()
    ensures { SchedulesHaveCombinedForms }
{}

/// A schedule that leaves no live process is one of combined steps in another order, with the same lines and the same
/// final state.
pub fn combined_steps_reach_endings()
    ensures { CombinedStepsReachEndings }
{}

/// The least length of a schedule that ends with a text is the least length of a schedule of combined steps that does.
pub fn least_lengths_are_equal()
    ensures { LeastLengthsAreEqual }
{}

/// Each text of a schedule has a least length, which schedules and schedules of combined steps reach.
///
/// So the first schedule of combined steps with a text, in the order of their lengths, is as short as any schedule.
pub fn texts_have_least_lengths()
    ensures { TextsHaveLeastLengths }
{}
