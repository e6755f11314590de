//! Laws of the checks. Each function's contract is the theorem; its body does nothing.

ghost use Rattle.cedar_expr_functions.specs.CallLaws.{NoFaultDecides};

/// An expression has no wrong call exactly where each call names a function of the table and has a right count of arguments.
pub fn wrong_calls_decide()
    ensures { NoFaultDecides }
{}
