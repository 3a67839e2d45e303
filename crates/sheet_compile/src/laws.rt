//! Laws of stylesheets.

ghost use Rattle.std.specs.Prelude.{◌≡◌, ℕ, List, Result, Err};
ghost use Rattle.sheet_ast.specs.declared.sheet.Sheet.{Sheet};
ghost use Rattle.sheet_compile.specs.Compiling.{Compiles};
ghost use Rattle.sheet_compile.specs.declared.stop.CompileStop.{CompileStop};
ghost use Rattle.sheet_compile.specs.declared.stop.CompileStop.TheVariants.{Memory};

use global_order::order_or_circle;

/// Bytes have one answer at most, want of memory left out.
pub fn one_answer()
    ensures { (bytes : List ℕ) (r s : Result Sheet CompileStop) → Compiles bytes r → Compiles bytes s → (r ≡ Err Memory → ⊥) → (s ≡ Err Memory → ⊥) → r ≡ s }
{
    order_or_circle();
}
