//! Laws of states that are equal up to dead variables: registers and bytes of the buffer that a process sets before it
//! reads them.

ghost use Rattle.pv_laws_classes.specs.Liveness.{ReadIsClosed, ClosedTestsAcceptRead, ComputedIsClosed, ComputedIsRead, EqualStatesFormClasses, ClearedStatesRepresent, UnreadVariablesAreDead, RejectedVariablesAreDead};

/// The variables that some path of the program reads before setting them satisfy the conditions for live variables.
pub fn read_variables_are_closed()
    ensures { ReadIsClosed }
{}

/// Every test that satisfies the conditions for live variables accepts all variables that some path of the program
/// reads before setting them.
pub fn closed_tests_accept_read_variables()
    ensures { ClosedTestsAcceptRead }
{}

/// The test that iterates n times over the lines of a program of n lines satisfies the conditions. The coarser test with
/// the same registers and a bound of bytes for each line satisfies them too.
pub fn computed_variables_are_closed()
    ensures { ComputedIsClosed }
{}

/// In a valid program, the iteration accepts no other variables than those that some path reads before setting them.
pub fn computed_variables_are_read()
    ensures { ComputedIsRead }
{}

/// To be equal up to dead variables is an equivalence of states.
pub fn alike_states_form_classes()
    ensures { EqualStatesFormClasses }
{}

/// The state with zero in the registers and bytes that a test rejects represents its class: it is in the class, and equal
/// for all states of the class and for no others.
pub fn cleared_states_represent()
    ensures { ClearedStatesRepresent }
{}

/// A register, or a byte of the buffer, that no path of the program from this line reads before setting it does not
/// distinguish a state from a valid one: the steps have the same outcome and lines and lead to such states, and runs have
/// the same lines.
pub fn unread_variables_alter_nothing()
    ensures { UnreadVariablesAreDead }
{}

/// For every test that satisfies the conditions for live variables, the variables that it rejects do not distinguish a
/// state from a valid one: the steps have the same outcome and lines and lead to such states, and runs have the same
/// lines.
pub fn rejected_variables_alter_nothing()
    ensures { RejectedVariablesAreDead }
{}
