//! Laws of the schedules that the answer `turns` gives.

ghost use Rattle.pv_laws_runs.specs.Turns.{TurnsAreReady, TurnsAreWithin, TurnsEndIdle, IdleIfNoneLives, TurnsEndWithNoneLive};

/// Each step of a schedule that `turns` writes is of a process that is live then, and no step is a blocked wait(2).
pub fn turns_are_ready()
    ensures { TurnsAreReady }
{}

/// A schedule that `turns` writes has at most the steps asked. If it has fewer, and a turn may have a step, no process
/// can make a step after it: each is ended or is in a blocked wait(2).
pub fn turns_end_idle()
    ensures within { TurnsAreWithin }
    ensures idle { TurnsEndIdle }
{}

/// In every state that a run reaches, no process can make a step if and only if none is live.
pub fn idle_if_none_lives()
    ensures { IdleIfNoneLives }
{}

/// From each state that a run reaches, a schedule that `turns` writes has fewer steps than asked only if no process is
/// live after it.
pub fn turns_end_with_none_live()
    ensures { TurnsEndWithNoneLive }
{}
