//! What plans come to. The function here does nothing, and its contract is a law.

ghost use Rattle.edit_plans.specs.Plans.{PlannerStays};

/// With more buckets in hand a planner stands right in each set in which it did.
pub fn planners_stay()
    ensures { PlannerStays }
{}
