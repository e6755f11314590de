//! Laws of conversions and of split lists. Each function's contract is the theorem; its body does nothing.

ghost use Rattle.cedar_expr_model.specs.ListLaws.{SplitGivesValues};
ghost use Rattle.cedar_expr_partial.specs.ConversionLaws.{ThereAndBack, SplitIntoExpressions, SplitKeeps};

/// The value of the expression that a canonical value is written as is that value, exactly where no extension value stands in
/// it; else there is none.
pub fn there_and_back()
    ensures { ThereAndBack }
{}

/// A list is split into values exactly where it is a list of these values, in this order; else into the expressions of all of
/// its items, in their order. Nothing is lost: written, the values are the expressions of the items.
pub fn split_keeps_order()
    ensures values { SplitGivesValues }
    ensures expressions { SplitIntoExpressions }
    ensures all { SplitKeeps }
{}
