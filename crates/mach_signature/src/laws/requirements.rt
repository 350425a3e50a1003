//! Laws of requirements.

ghost use Rattle.std.specs.Prelude.{◌≡◌, ◌≤◌, ℕ, List, Ok};
ghost use Rattle.mach_signature.specs.ExpressionDepths.{expression_depth};
ghost use Rattle.mach_signature.specs.Requirements.{Expression, IsExpression, expression_at};

/// What is read as an expression of a requirement is the one that is there, and one that isn't too deep is read.
pub fn expressions_are_read()
    ensures read { (depth : ℕ) (bytes : List ℕ) (place end : ℕ) (x : Expression) → expression_at depth bytes place ≡ Ok (x, end)
        → IsExpression bytes place x end }
    ensures there { (depth : ℕ) (bytes : List ℕ) (place end : ℕ) (x : Expression) → IsExpression bytes place x end → expression_depth x ≤ depth
        → expression_at depth bytes place ≡ Ok (x, end) }
{}
