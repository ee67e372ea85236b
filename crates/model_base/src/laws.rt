// What holds of every shape. A caller learns it by calling a function that does nothing.
ghost use Rattle.std.specs.Prelude.{ℕ, ◌↔◌, IsTrue};
ghost use Rattle.model_base.specs.declared.shape.Shape.{Shape};
ghost use Rattle.model_base.specs.Limits.{is_within_limits, IsPageSize, IsWholeSectors, IsWithinLimits};

/// The test of a shape's limits passes exactly where each of its sizes keeps its own.
pub fn limits_as_facts()
    ensures { (shape : Shape) → IsTrue (is_within_limits shape) ↔ IsWithinLimits shape }
{}

/// A page is of whole sectors, and not too long for the offsets in records.
pub fn page_size_as_facts()
    ensures { (n : ℕ) → IsPageSize n → IsWholeSectors n }
{}
