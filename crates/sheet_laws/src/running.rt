ghost use Rattle.std.specs.Prelude.{ℕ, List, Ok};
ghost use Rattle.sheet_ast.specs.declared.sheet.Sheet.{Sheet};
ghost use Rattle.sheet_compile.specs.Compiling.{Compiles};
ghost use Rattle.sheet_laws.specs.Running.{CanRun};

/// A stylesheet that bytes are can run on every document: its globals have an order (XSLT 1.0, section 11.4), it
/// declares no key, as xsl:key is refused, and of its rules for whitespace each that gives a local name gives a
/// namespace (section 3.4).
pub fn compiled_sheets_can_run()
    ensures { (bytes : List ℕ) (sheet : Sheet) → Compiles bytes (Ok sheet) → CanRun sheet }
{}
